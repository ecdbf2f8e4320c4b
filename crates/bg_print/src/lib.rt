//! The printed layout of a program.
#![tactic(auto)]

mod decls;
mod exprs;
mod laws;
mod names;
mod parts;
mod program;
mod put;
mod stmts;
mod types;

pub use laws::printed_is_read;
pub use program::print;
