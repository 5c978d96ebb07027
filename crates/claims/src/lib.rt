// The claims of a group file: one claim taken and measured, and what a run of claims is to a loop over it. What the header says, and
// what is asked of a file, is not known here.
#![tactic(auto)]

pub mod claim;
pub mod counts;
pub mod cursor;
pub mod run;
pub mod span;
pub mod sums;
