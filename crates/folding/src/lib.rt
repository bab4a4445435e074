// The call that folds a word's capital letters to a lent output, with its refusals. It asks nothing of its caller.
#![tactic(auto)]

pub mod fold;
mod plain;
mod step;
mod walk;
