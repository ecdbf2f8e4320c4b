//! The variables that a body may change: what a loop forgets.
#![tactic(auto)]

mod forgotten;
mod listed;
mod marks;
mod stmts;

pub use forgotten::{modified, targets};
