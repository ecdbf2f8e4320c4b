//! What walks are judged by.
use bg_places::Spot;
use std::alloc::Global;

/// The candidates that are there, the check at which a walk fails, and truth values of the atoms.
#[derive(Clone, Copy)]
pub struct Trial<'a> {
    pub alloc: Global,
    pub set: &'a [bool],
    pub target: Spot,
    pub truths: &'a [bool],
}
