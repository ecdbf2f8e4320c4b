//! The state of an elimination.

use crate::columns::Columns;
use crate::order::{Further, Reason};
use bg_base::OutOfRange;
use bg_rows::{Key, Row};
use std::collections::BTreeMap;

/// The variables done, the kept rows with their reasons, where each row is found by its key, which
/// rows are still to be paired, of the same entries only the nearest, and in which rows each variable
/// stands.
#[derive(Drop)]
pub struct Work {
    pub order: Vec<u32>,
    pub reasons: Vec<Reason>,
    pub rows: Vec<Row>,
    pub at: BTreeMap<Key, usize>,
    pub live: Vec<bool>,
    pub columns: Columns,
}

/// What taking a row in did.
#[derive(Clone, Copy)]
pub enum Taken {
    /// It is kept, or implied by one that is, or always true.
    Done,
    /// It is false.
    False,
    /// As many rows are kept as the budget says.
    Full,
}

/// How a row stands to the nearest kept row of the same entries.
#[derive(Clone, Copy)]
pub enum Stand {
    /// None is found.
    Alone,
    /// The kept row of this number implies it.
    Implied(usize),
    /// It implies the kept row of this number.
    Nearer(usize),
}

/// A row divided by what its coefficients share, and how it stands to the kept rows.
#[derive(Drop)]
pub struct Tight {
    pub row: Row,
    pub stand: Stand,
}

/// What pairing two kept rows did.
#[derive(Clone, Copy)]
pub enum Paired {
    /// The row without the variable is taken in.
    Ready,
    /// It is false.
    Refutes,
    /// As many rows are kept as the budget says.
    NoRoom,
    /// An operation of the elimination leaves the range.
    Leaves(OutOfRange),
}

/// What a row of pairs did.
#[derive(Clone, Copy)]
pub enum Round {
    /// All pairs are taken in.
    Whole,
    /// The reason makes a false row.
    RefutedBy(Reason),
    /// As many rows are kept as the budget says.
    Filled,
    /// An operation of an elimination leaves the range.
    Left(Further),
}

/// A side of 0.
#[derive(Clone, Copy)]
pub enum Side {
    Above,
    Below,
}
