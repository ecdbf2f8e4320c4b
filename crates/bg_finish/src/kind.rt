//! What a leaf comes to.
use bg_base::OutOfRange;
use bg_scalar::{Table, Value};
use bg_term_table::Line;

/// What a leaf comes to: where it is finished, the values of incarnations and terms, and a table for each function; where it isn't, lines
/// that are wanted, with values and tables that may be tried; or neither, since this operation of the terms' arguments, the first that does, leaves 128 bits, or since something is no
/// number and no truth value or isn't there.
#[derive(Drop)]
pub enum Finish {
    Tables(Vec<Value>, Vec<Table>),
    Lines(Vec<Line>, Vec<Value>, Vec<Table>),
    Leaves(OutOfRange),
    NoScalars,
}
