//! Passive blocks made flat.
#![tactic(auto)]

mod blocks;
pub mod laws;
mod whole;

pub use whole::{Flat, flattened};
