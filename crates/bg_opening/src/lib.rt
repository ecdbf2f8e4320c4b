//! The opened program of a resolved one: constants are globals, bodies of functions stand in the place of their applications alone, and
//! that unique constants differ, and the axioms, are assumed in front of each body. Beside it the axioms' own program.
#![tactic(auto)]

mod applies;
mod axioms;
mod copies;
mod declared;
mod exprs;
pub mod laws;
mod nexts;
mod nodes;
mod passes;
mod puts;
mod stmts;
mod types;
mod uniques;
mod whole;

pub use axioms::axiom_program;
pub use nexts::{next_of, nexts_of};
pub use uniques::{Unique, uniques_of};
pub use whole::open_program;
