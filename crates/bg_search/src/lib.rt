//! The search of a place's clauses: what an engine proposes, where it is checked, and else what the tree search finds.
#![tactic(auto)]

mod checked;

pub use checked::{Aim, Searched, search};
