//! Calls removed: a body in which each call is the plan of its procedure's specification. Blocks: such a body as a list of blocks with
//! jumps, its loops cut.
#![tactic(auto)]

pub mod calls;
pub mod laws;
