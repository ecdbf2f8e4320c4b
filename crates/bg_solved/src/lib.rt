//! Equalities that hold for good, solved: each eliminates one term, and rows are rewritten over the terms that stay, with derivations
//! of what is rewritten. Besides, the equalities that two sets of equalities have in common.
//!
//! What is made here is a proposal: who uses it checks the derivations. Proved is that each call is safe and ends.
#![tactic(auto)]

mod affine;
mod assign;
mod derive;
mod equality;
mod equation;
mod halves;
mod matrix;
mod rewrite;
mod solve;

pub use affine::common;
pub use assign::complete;
pub use derive::{Deriver, add_multiple, clear, new_deriver, push_step, reduced_row};
pub use equality::{Dep, Equality, Solved, new_solved};
pub use equation::{Equation, made_row};
pub use rewrite::{Reduced, as_given, is_reduced, reduce};
pub use solve::{are_opposite, learn_equality};
