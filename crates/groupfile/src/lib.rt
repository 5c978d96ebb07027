// The group file as every call takes it: the file opened, with questions 1 to 9, 18 in its place, after 6 and before 7, and 19 in its,
// after 9. What the losses come to in premiums is not known here.
#![tactic(auto)]

pub mod header;
pub mod opening;
