// Document 02, request 3: the hand journal. A hand is written into blocks of 512 bytes, and read back as its lines.
#![tactic(auto)]

pub mod block;
mod fill;
pub mod hand;
mod heads;
pub mod laying;
mod lines;
pub mod reading;
pub mod sums;
pub mod tape;
mod words;
