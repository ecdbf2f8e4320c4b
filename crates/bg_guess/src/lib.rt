//! Guessed clauses: a program with candidates of its own, at procedures that are called or have a body, and at loops.
#![tactic(auto)]

mod calls;
mod claim;
mod counts;
mod frame;
pub mod laws;
mod loops;
mod numbers;
mod places;
mod procedures;
mod survey;
mod whole;

pub use whole::{count, guess};
