// The twelve marks of the suffix stage, what a mark of either stage answers, and the key tables.
#![tactic(auto)]

pub mod mark;
pub mod marked;
pub mod tables;
