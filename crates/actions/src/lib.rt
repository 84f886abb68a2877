// The actions of an event, read back from the bytes of a transcript, and what they make of a line.
#![tactic(auto)]

pub mod levels;
pub mod reading;
