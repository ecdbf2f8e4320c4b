//! From truth values of atoms, under which the equations of a check deny the entry block, to a run that fails there.
#![tactic(auto)]

mod choices;
mod choose;
mod commands;
mod exit;
mod failure;
mod find;
mod front;
mod pick;
mod picked;
mod share;
mod stretch;
mod trial;
mod turn;
mod turns;
mod walk;

pub use failure::Counterexample;
pub use find::{Routine, Valuation, counterexample};
