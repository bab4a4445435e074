// The port of the postlude under the Rust's names: what it repairs at a stem's end. Nothing here refuses or writes: the calls stand above.
#![tactic(auto)]

pub mod postlude;
