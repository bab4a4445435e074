// The port of the noun stage: its marks, the chain before `ki`, and the stage.
#![tactic(auto)]

mod chain;
mod link;
mod mark;
pub mod stage;
mod step;
mod tables;
