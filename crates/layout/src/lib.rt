// How a table stands in a host's two lists, floats and numbers: the places have their names here alone, and this is the way in and out.
#![tactic(auto)]

mod added;
pub mod laying;
pub mod outcome;
pub mod places;
pub mod standing;
pub mod words;
