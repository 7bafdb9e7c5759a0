// Document 02, request 3: the hands of a script, taken one by one for the journal, and a hand of the journal played again.
#![tactic(auto)]

pub mod recording;
pub mod replaying;
