//! What is told of an opened program is true of the program.
#![tactic(auto)]

pub mod laws;
