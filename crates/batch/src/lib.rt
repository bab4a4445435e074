// The suffix stage for a front and many tails together (document 02, request 7).
#![tactic(auto)]

pub mod call;
mod entries;
mod refusal;
mod tails;
