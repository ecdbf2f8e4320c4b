//! What says where to look first at a leaf.
use std::collections::BTreeMap;

/// Beside each incarnation and term those that the blocks compare it with; of which of all the place's claim speaks; of which its clauses
/// speak; what the claim says to be equal that has no names yet of an index at which it differs; and whether a way goes on behind an index
/// that is a select's at the leaf alone. They say where to look first, and nothing of what is told rests on them.
#[derive(Clone, Copy)]
pub struct Hints<'a> {
    pub beside: &'a BTreeMap<u32, Vec<u32>>,
    pub first: &'a [bool],
    pub marks: &'a [bool],
    pub equal: &'a [(u32, u32)],
    pub further: bool,
}
