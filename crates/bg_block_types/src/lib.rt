//! The blocks of a typed implementation are typed, and so are the same blocks made passive. The crate has laws alone.
#![tactic(auto)]

pub mod laws;
