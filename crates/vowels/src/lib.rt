// Vowels: the vowel type, vowel harmony, and the walk back to the last vowel.
#![tactic(auto)]

pub mod harmony;
pub mod vowel;
pub mod walk;
