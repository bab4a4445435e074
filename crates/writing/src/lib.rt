// Bytes written at a place of a lent output.
#![tactic(auto)]

pub mod letter;
pub mod put;
