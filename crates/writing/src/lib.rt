// Write: given values as the bytes of a group file. What it asks of them, questions 15 and 19, is `fitting`. All questions
// are decided before the first byte is stored.
#![tactic(auto)]

pub mod fitting;
pub mod writer;
