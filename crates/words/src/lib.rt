// The calls on a word of bytes that write nothing. None asks anything of its caller.
#![tactic(auto)]

pub mod check;
pub mod stage;
pub mod syllable;
