//! What a report says, with nothing of how it was found, and when that is true of a program.
#![tactic(auto)]

pub mod laws;
