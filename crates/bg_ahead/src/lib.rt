//! Blocks of forms with more commands in front of them, without making those again that are there.
#![tactic(auto)]

mod known;
pub mod laws;
mod moved;
mod rows;
mod whole;

pub use whole::ahead;
