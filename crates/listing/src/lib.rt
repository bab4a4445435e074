// The listing of a stream of words: the step that takes a block of input, and the last line.
#![tactic(auto)]

pub mod feed;
pub mod held;
