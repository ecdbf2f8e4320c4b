//! Statements read from tokens.
#![tactic(auto)]

mod blocks;
mod simple;

pub use blocks::stmts;
