//! What is looked at at a leaf.
use crate::first::Firsts;
use crate::maps::Selects;
use crate::row::Row;
use bg_scalar::Scalar;
use bg_term_table::Term;

/// The terms with their rows behind so many incarnations, the places of the first terms that speak of a type of maps, the first row of each
/// key, and the selects from each map.
#[derive(Clone, Copy)]
pub struct Looked<'a> {
    pub count: u32,
    pub terms: &'a [Term],
    pub rows: &'a [Row],
    pub met: &'a [u32],
    pub firsts: &'a Firsts,
    pub selects: &'a Selects,
}

/// An update: its number, the number of the type of its maps, its scalar, that of its map, the new value's, and those of its index.
#[derive(Clone, Copy)]
pub struct Update<'a> {
    pub number: u32,
    pub maps: u32,
    pub value: Scalar,
    pub before: Scalar,
    pub new: Scalar,
    pub index: &'a [Scalar],
}
