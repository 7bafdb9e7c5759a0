// The calls that only the comparison with the Rust makes: document 01's helpers one by one, and a run of bets by value.
#![tactic(auto)]

pub mod float_calls;
pub mod running;
