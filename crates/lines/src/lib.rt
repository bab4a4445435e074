// One word's whole output line in the listing, written to a lent output: of the word as it stands, or as its folded form.
#![tactic(auto)]

pub mod line;
pub mod listed;
