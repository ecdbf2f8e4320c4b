//! What elimination answers.

use bg_base::OutOfRange;
use bg_rows::{Row, Step};

/// Why a row is kept: it was given, or it is made from earlier ones.
#[derive(Clone, Copy)]
pub enum Reason {
    /// Given row j, from 0.
    Given(usize),
    /// Kept row i, tightened.
    Tightened(usize),
    /// `Eliminated(i, j, x)`: kept rows i and j without variable x.
    Eliminated(usize, usize, u32),
}

/// An order of variables, and kept rows with the reason of each.
#[derive(Drop)]
pub struct Order {
    pub variables: Vec<u32>,
    pub reasons: Vec<Reason>,
    pub rows: Vec<Row>,
}

/// An elimination of which an operation leaves the range: the numbers of its two kept rows, the
/// variable, and the operation.
#[derive(Clone, Copy)]
pub struct Further {
    pub first: usize,
    pub second: usize,
    pub variable: u32,
    pub operation: OutOfRange,
}

/// Why elimination came to no end: as many rows were kept as the budget says, or an operation of
/// a further elimination leaves the range.
#[derive(Drop)]
pub enum Stop {
    Rows(Order),
    Range(Order, Further),
}

/// What elimination finds: a derivation of a false row, an order that solves the rows, or why it
/// stopped.
#[derive(Drop)]
pub enum Found {
    Refuted(Vec<Step>),
    Solvable(Order),
    Unknown(Stop),
}
