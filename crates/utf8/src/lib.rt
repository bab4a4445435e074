// The characters of a word of bytes seen from a place in it, and a cursor by value whose steps take whole characters.
#![tactic(auto)]

pub mod characters;
pub mod cursor;
pub mod literal;
pub mod step;
