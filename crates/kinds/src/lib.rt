// The pieces of a removed ending as a host gets them: their kinds as numbers and names, and the two forms in which they are written.
#![tactic(auto)]

pub mod entries;
pub mod kind;
pub mod spelling;
