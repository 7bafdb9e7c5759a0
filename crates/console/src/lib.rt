// Documents 01 and 02, the script program: a script played on a table, line by line, and what is printed for it.
#![tactic(auto)]

pub mod act;
pub mod ending;
mod opening;
pub mod play;
pub mod shown;
