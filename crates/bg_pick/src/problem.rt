//! What is searched.

use crate::index::Index;
use bg_formula::Clauses;

/// The problem that is searched: a formula, the candidates that are in the set, the index of both, and the targets: the whole numbers
/// near which a point is to have its terms, by their numbers, 0 for a term behind the list's end.
#[derive(Clone, Copy)]
pub struct Problem<'a> {
    pub formula: &'a Clauses,
    pub set: &'a [bool],
    pub index: &'a Index,
    pub targets: &'a [i128],
}
