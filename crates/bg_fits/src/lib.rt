//! The types of what a program declares, and what programs over values are: of variables and functions without a body, in which each map has an
//! index.
#![tactic(auto)]

mod copies;
mod types;
mod written;

pub use copies::{kind_copied, map_kind, push_copies};
pub use types::base_in;
pub use written::{push_kinds, written_kind, written_kinds};
