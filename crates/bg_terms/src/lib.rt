//! Terms: applications, selects and updates as incarnations of their own. The crate has definitions and laws alone.
#![tactic(auto)]

pub mod laws;
