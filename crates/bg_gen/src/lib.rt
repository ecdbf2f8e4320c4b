//! Programs with candidates, made from a seed and a size: each procedure has a loop that counts, and calls the one before it.
#![tactic(auto)]

mod draws;
mod program;
mod put;

pub use program::generate;
