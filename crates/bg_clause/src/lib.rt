//! Clauses that say that the entry block of an implementation is not well for a target.
#![tactic(auto)]

mod clause;
mod emit;
mod fails;
mod few;
mod fronts;
pub mod laws;
mod lent;
mod naming;
mod pairs;
mod rows;
mod short;
mod signs;
mod table;
mod tell;
mod waiting;
mod ways;
mod whole;

pub use whole::{Names, clauses};
