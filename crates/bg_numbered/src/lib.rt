//! Expressions made flat over a table of terms, as a function: which terms there are, and in which order. The crate has definitions and
//! laws alone.
#![tactic(auto)]

pub mod laws;
