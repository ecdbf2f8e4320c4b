//! A program with its retained annotations: candidates aren't declared, a clause of a retained candidate is its right side, and a
//! clause of another candidate isn't there.
#![tactic(auto)]

mod clauses;
mod guesses;
pub mod laws;
mod parts;
mod program;
mod stmts;

pub use program::keep;
