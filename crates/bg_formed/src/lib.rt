//! Passive blocks whose commands say forms over atoms in the place of expressions.
#![tactic(auto)]

mod blocks;
pub mod laws;
mod says;
mod used;

pub use blocks::{FormBlock, FormCmd, FormEdge, Says};
pub use says::said;
pub use used::{Use, is_spot, refused, use_cmd, use_edges, use_later, uses};
