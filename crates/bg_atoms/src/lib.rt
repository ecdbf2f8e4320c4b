//! Blocks of forms of the passive blocks of an implementation, over truth incarnations and rows of relations.
//!
//! An expression over incarnations is first made one over atoms, in which a relation of numbers is an expression over the atoms of its
//! rows; of that the form is made.
#![tactic(auto)]

mod blocks;
mod build;
mod chains;
mod exprs;
mod heads;
mod made;
mod named;
mod order;
mod product;
mod relate;
mod signs;
mod sorted;
mod table;
mod whole;

pub use product::Atoms;
pub use whole::atoms;
