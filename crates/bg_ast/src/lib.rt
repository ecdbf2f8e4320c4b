//! Programs as plain data, how contracts see them, and what they mean.
#![tactic(auto)]

pub mod laws;
pub mod resolved;
