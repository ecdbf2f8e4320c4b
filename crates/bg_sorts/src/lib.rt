//! The types of declared variables, and of the incarnations that passive blocks give them.
#![tactic(auto)]

mod arrival;
mod commands;
mod known;
mod types;
mod whole;

pub use types::{declared_kinds, frame_kinds};
pub use whole::incarnation_kinds;
