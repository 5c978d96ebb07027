// Step 1 over a file: the sums of a risk's claims, in either edition, and the walk over all risks with the running sums.
#![tactic(auto)]

pub mod accidents;
pub mod risks;
pub mod singles;
pub mod walking;
