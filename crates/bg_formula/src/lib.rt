//! Formulas: numbered atoms, clauses over them, candidates that may be added as units, and what a
//! valuation makes of them.
#![tactic(auto)]

mod atom;
mod clauses;
mod deny;
pub mod laws;

pub use atom::{Atom, Linear, Literal};
pub use clauses::Clauses;
pub use deny::deny_row;
