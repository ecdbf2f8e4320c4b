//! Typing: each expression has a type, or a fault says why not; the faults of statements.
//!
//! These are parts of `bg_types::check_types`, on which others rely alone.
#![tactic(auto, using(bg_kinds::proofs::Firsts::first_of_append, bg_kinds::proofs::Firsts::is_none_append))]

mod exprs;
mod nodes;
mod parts;
mod scope;
mod sides;
mod stmts;

pub use nodes::want_all;
pub use parts::{want_clauses, want_expr, want_truth};
pub use scope::{Scope, Shape, kind_at};
pub use sides::Side;
pub use stmts::check_stmts;
