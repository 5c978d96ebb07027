// Rate, and what the program `retro` prints beside its results. Of the C side nothing is known here.
#![tactic(auto)]

pub mod details;
pub mod rates;
