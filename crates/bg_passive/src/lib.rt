//! Passive blocks: each change of a variable makes a new incarnation, and a join of ways has incarnations of its own;
//! and the equations of such blocks for one target: what each block's truth variable is.
#![tactic(auto)]

pub mod equations;
pub mod laws;
