// No code: the stages in a simpler form stand in specs/, and the theorems in proofs/.
#![tactic(auto)]
