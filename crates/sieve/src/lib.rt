// The rows of a category that pass what steps 7 to 10 have settled: the first of them, the one that step 9 looks for, the signal where it finds none, and what a
// measure has to fit.
#![tactic(auto)]

pub mod first;
pub mod left;
pub mod needed;
pub mod search;
pub mod settled;
pub mod signal;
