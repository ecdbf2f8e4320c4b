//! Instances of terms as expressions, in front of flat blocks.
#![tactic(auto)]

mod blocks;
mod build;
mod lines;
mod parts;
mod selects;
mod shape;
mod stated;

pub use blocks::behind;
pub use lines::supposing_lines;
