//! An implementation's passive blocks in terms: made flat, behind lines. The crate has definitions and laws alone.
#![tactic(auto)]

pub mod laws;
