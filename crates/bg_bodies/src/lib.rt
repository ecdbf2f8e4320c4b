//! Statements: their names become numbers.
//!
//! A layer of `bg_resolve`, which has the public contract: use `bg_resolve::resolve`.
#![tactic(auto)]

pub mod bodies;
pub mod labels;
pub mod simple;
