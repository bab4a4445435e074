// The port of suffix stage and syllable check under the Rust's names. Nothing here refuses: the calls with their refusals stand above.
#![tactic(auto)]

pub mod stage;
pub mod syllable;
pub mod trail;
