// The calls that spell out a removed ending, with their refusals (document 02, request 1). None asks anything of its caller.
#![tactic(auto)]

pub mod buffer;
pub mod removed;
pub mod text;
