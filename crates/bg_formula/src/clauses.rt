//! Clauses over numbered atoms.

use crate::atom::{Atom, Literal};

/// A formula: the conjunction of its clauses, each a disjunction of literals. A literal names an
/// atom by its place among the atoms, and a row names a term by a number below `terms`.
#[derive(Drop)]
pub struct Clauses {
    pub terms: u32,
    pub atoms: Vec<Atom>,
    pub clauses: Vec<Vec<Literal>>,
    /// The atom that each candidate adds as a unit, or none where the candidate plays no part.
    pub candidates: Vec<Option<u32>>,
}
