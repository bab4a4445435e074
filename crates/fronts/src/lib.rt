// What a front says of the words that it begins: its summary, and a short front that may stand in its stead (document 02, request 7).
#![tactic(auto)]

pub mod stand_in;
pub mod summary;
