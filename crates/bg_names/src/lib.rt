//! What names mean in expressions, types and clauses, and the first fault so far.
//!
//! A layer of `bg_resolve`, which has the public contract: use `bg_resolve::resolve`.
#![tactic(auto)]

pub mod changes;
pub mod clauses;
pub mod copy;
pub mod error;
pub mod exprs;
pub mod names;
pub mod notes;
pub mod scope;
pub mod types;
pub mod walk;
