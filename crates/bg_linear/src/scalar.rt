//! Sorts of incarnations, and kinds of expressions over them.

/// The sort of an incarnation.
#[derive(Clone, Copy, PartialEq, Eq, Debug)]
pub enum Sort {
    Truth,
    Number,
    Other,
}

/// What an expression is: a truth value, a number that is made of numbers alone, or another number.
#[derive(Clone, Copy, PartialEq, Eq, Debug)]
pub enum Kind {
    Truth,
    Constant,
    Number,
}
