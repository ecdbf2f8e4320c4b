//! Blocks made passive: each change of a variable makes a new incarnation, and a join of ways has incarnations of its own.
#![tactic(auto)]

mod arrived;
mod blocks;
mod call;
mod clauses;
mod command;
mod edges;
mod held;
pub mod laws;
mod merge;
mod walk;
mod whole;
mod worth;

pub use blocks::{Edge, Incarnations, Passive, PassiveBlock, PassiveCmd};
pub use whole::passive;
