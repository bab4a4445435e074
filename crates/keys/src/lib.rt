// The keys of the tables: what is seen before a cursor, the search for a key that ends there, and what joins it to the text before it.
#![tactic(auto)]

pub mod among;
pub mod ends;
pub mod joint;
pub mod seen;
