//! Typed programs over values: each map among their incarnations has an index, and their checks are places. The crate has laws alone.
#![tactic(auto)]

pub mod laws;
