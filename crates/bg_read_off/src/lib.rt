//! Leaves of flat blocks: the values behind their scalars, and the interpretation that is read off these. The crate has
//! definitions and laws alone.
#![tactic(auto)]

pub mod laws;
