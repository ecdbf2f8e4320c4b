//! What back-substitution answers.

use bg_base::OutOfRange;

/// A variable with its value, and the number of the kept row that keeps it from its target, where
/// the value isn't that.
#[derive(Clone, Copy)]
pub struct Spot {
    pub variable: u32,
    pub value: i128,
    pub reason: usize,
}

/// No whole number fits between `below` and `below + 1`: row `low` keeps the variable above
/// `below`, and row `up` below `below + 1`.
#[derive(Clone, Copy)]
pub struct Gap {
    pub variable: u32,
    pub below: i128,
    pub low: usize,
    pub up: usize,
}

/// An operation on kept row `row` at the variable leaves the range.
#[derive(Clone, Copy)]
pub struct Far {
    pub variable: u32,
    pub row: usize,
    pub operation: OutOfRange,
}

/// What back-substitution finds, with the spots so far, the last variable first: a value for each
/// variable, a gap, or an operation that leaves the range.
#[derive(Drop)]
pub enum Placed {
    Point(Vec<Spot>),
    Split(Vec<Spot>, Gap),
    Unknown(Vec<Spot>, Far),
}
