// Plans sold on premiums: the premiums of a plan and their total, what they are to pay, the trials, and questions 22 and 23.
#![tactic(auto)]

pub mod owed;
pub mod plans;
pub mod premiums;
