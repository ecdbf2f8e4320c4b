//! Names, types, attributes, names with their type, and clauses, read from tokens.
#![tactic(auto)]

mod parts;
mod types;
mod word;

pub use parts::{args, attributes, clause, exprs, groups, invariants, names, says};
pub use types::{ty, unnamed};
pub use word::{name, named};
