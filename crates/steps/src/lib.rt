// Steps 2 to 6 of document 01 as small functions, and question 12. They take a group's header values
// and losses; of the file nothing is known here.
#![tactic(auto)]

pub mod balance;
pub mod basic;
pub mod bill;
pub mod marks;
pub mod ratable;
pub mod spread;
