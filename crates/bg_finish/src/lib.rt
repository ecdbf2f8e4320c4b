//! Leaves over numbers and truth values: the values of incarnations and terms with tables of the functions, or lines that are wanted.
#![tactic(auto)]

mod kind;
mod tables;
mod whole;

pub use kind::Finish;
pub use whole::finish;
