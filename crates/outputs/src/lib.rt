// The calls on a word of bytes that write what the stages leave to a lent output, with their refusals. None asks anything of its caller; `run` is
// for the listing's line.
#![tactic(auto)]

pub mod noun;
pub mod pass;
pub mod postlude;
mod repair;
pub mod run;
pub mod whole;
