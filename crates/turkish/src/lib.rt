// What the calls answer. The meaning of the stages stands in specs/.
#![tactic(auto)]

pub mod answer;
pub mod endings;
pub mod refusal;
pub mod reply;
pub mod summary;
