//! Inference of a program's candidates, where the program may have constants, functions, and axioms.
#![tactic(auto)]

mod inference;
pub mod laws;
mod outcome;

pub use inference::infer;
pub use outcome::Outcome;
