//! Expressions over incarnations: each variable is read by the number of its incarnation, and no `old` is left.
#![tactic(auto)]

mod build;
mod env;
mod exprs;
pub mod laws;
mod targets;

pub use build::{equal, negated};
pub use env::Env;
pub use exprs::renamed;
pub use targets::assigned;
