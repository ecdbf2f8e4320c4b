//! That what the reader lets through can be opened.
#![tactic(auto)]

pub mod laws;
