// No code: what the call on a front and its tails gives stands in specs/, and the theorems about it in proofs/.
#![tactic(auto)]
