// Characters as bytes: the UTF-8 check over any slice, and the plain runs that it skips.
#![tactic(auto)]

pub mod continuation;
pub mod plain;
mod short;
pub mod validity;
mod walk;
