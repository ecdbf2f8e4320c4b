//! Terms by what their arguments are worth.
use crate::class::Class;
use bg_base::OutOfRange;
use bg_scalar::Scalar;

/// A term: what makes it, what its arguments are worth, and what it is worth itself.
#[derive(Drop)]
pub struct Row {
    pub class: Class,
    pub args: Vec<Scalar>,
    pub value: Scalar,
}

/// What one term comes to: a row; or none, since this operation of its arguments leaves 128 bits, or since something is no scalar or isn't
/// there.
#[derive(Drop)]
pub enum One {
    Is(Row),
    Leaves(OutOfRange),
    NoRow,
}

/// The same of all terms; with the places of the first terms that speak of a type of maps.
#[derive(Drop)]
pub enum Rows {
    Are(Vec<Row>, Vec<u32>),
    Leave(OutOfRange),
    NoRows,
}
