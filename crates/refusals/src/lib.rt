// Why a call refuses a word (document 01, "Whose fault a refusal is"), and the limit.
#![tactic(auto)]

pub mod refusal;
