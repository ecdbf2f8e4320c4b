//! What some rows allow a variable.

use crate::spot::{Far, Gap, Spot};

/// The limit that a row sets.
#[derive(Clone, Copy)]
pub struct Mark {
    pub value: i128,
    pub row: usize,
}

/// The greatest lower and the least upper limit, where there are any.
#[derive(Clone, Copy)]
pub struct Span {
    pub low: Option<Mark>,
    pub up: Option<Mark>,
}

/// The value nearest to a target in a span, with the row that keeps it from that; or that there is none.
#[derive(Clone, Copy)]
pub enum Choice {
    Value(Mark),
    Empty { below: i128, low: usize, up: usize },
}

/// What the next variable gets.
#[derive(Clone, Copy)]
pub enum Next {
    Value(Spot),
    Empty(Gap),
    Refused(Far),
}
