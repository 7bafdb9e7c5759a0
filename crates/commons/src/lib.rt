// What belongs to no one subject: copies and comparisons of slices. Its definitions and laws are of lists, tests and sums.
#![tactic(auto)]

pub mod comparing;
pub mod copying;
