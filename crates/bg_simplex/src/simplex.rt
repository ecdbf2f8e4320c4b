//! The simplex: bounds over a tableau.
use crate::bound::{
    Bound, Bounds, Lit, add_column, bound_at, change, has_bounds, new_bounds, restore,
};
use crate::fraction::{Fraction, is_above, is_below, whole};
use crate::numbers::let_all_go;
use crate::sums::{push_line, rest, wake};
use crate::tableau::{Tableau, line_at, new_tableau, push_column, shift, touch, value_at};
use bg_rows::Entry;
use std::alloc::{AllocError, Global};

/// Columns with bounds, and lines over them.
#[derive(Drop)]
pub struct Simplex {
    pub bounds: Bounds,
    pub tableau: Tableau,
}

/// A simplex without columns.
pub fn new_simplex(alloc: Global) -> Simplex {
    Simplex {
        bounds: new_bounds(alloc),
        tableau: new_tableau(alloc),
    }
}

/// Whether a number left 128 bits, or a check took too many pivots: it tells nothing any more.
pub fn is_broken(s: &Simplex) -> bool {
    s.tableau.broken
}

/// The number of the next column, or line.
fn number(length: usize) -> Result<u32, AllocError> {
    match u32::try_from(length) {
        Ok(n) => Ok(n),
        Err(_) => Err(AllocError),
    }
}

/// One column more, with the value 0 and without bounds. Answers its number. Only want of memory is an error, as it is that of a
/// 2^32nd column.
pub fn new_column(alloc: Global, s: &mut Simplex) -> Result<u32, AllocError> {
    let column = number(s.tableau.values.len())?;
    add_column(&mut s.bounds)?;
    push_column(alloc, &mut s.tableau, Vec::new(alloc), None)?;
    Ok(column)
}

/// One column more that is worth this sum of columns (the variables of the entries are columns, each of them once), and has no bounds.
/// Answers its number. Only want of memory is an error.
pub fn new_line(alloc: Global, s: &mut Simplex, sum: &[Entry]) -> Result<u32, AllocError> {
    let column = number(s.tableau.values.len())?;
    let line = number(s.tableau.lines.len())?;
    push_line(alloc, &mut s.tableau, column, line, sum)?;
    add_column(&mut s.bounds)?;
    Ok(column)
}

/// The lower bound of a column, if it has one.
pub fn low(s: &Simplex, column: u32) -> Option<Bound> {
    bound_at(&s.bounds, column, false)
}

/// The upper bound of a column, if it has one.
pub fn high(s: &Simplex, column: u32) -> Option<Bound> {
    bound_at(&s.bounds, column, true)
}

/// The value of a column that was made alone: one within its bounds behind a check that finds no clash.
pub fn value(s: &Simplex, column: u32) -> Fraction {
    value_at(&s.tableau, column)
}

/// How many changes of bounds stand.
pub fn mark(s: &Simplex) -> usize {
    s.bounds.undo.len()
}

/// The line of a column rests, if the column has no bounds and its line may rest.
pub fn rest_without_bounds(s: &mut Simplex, column: u32) {
    if !has_bounds(&s.bounds, column) {
        rest(&mut s.tableau, column);
    }
}

/// Takes back the changes of bounds behind a mark. Values stay: they are within wider bounds too. Takes time for each change.
pub fn take_back(s: &mut Simplex, mark: usize) {
    for _ in mark..s.bounds.undo.len() {
        if let Some(column) = restore(&mut s.bounds) {
            rest_without_bounds(s, column);
        }
    }
    let_all_go(&mut s.tableau.touched);
}

/// Whether a bound tells all that another one on its side does.
fn is_as_near(upper: bool, bound: i128, other: i128) -> bool {
    if upper {
        bound <= other
    } else {
        bound >= other
    }
}

/// A column of which a bound changed: where it isn't basic, its value comes within the bound.
fn settle(t: &mut Tableau, column: u32, upper: bool, bound: i128) {
    touch(t, column);
    if line_at(t, column).is_none() {
        let v = value_at(t, column);
        let is_out = if upper {
            is_above(v, bound)
        } else {
            is_below(v, bound)
        };
        if is_out {
            shift(t, column, whole(bound));
        }
    }
}

/// Sets a bound of a column. Where it clashes with the opposite bound it isn't set, and the literal that set that one is the answer:
/// the two literals' rows add up to a false one. A line that rests doesn't wake for a bound that the bounds of its sum imply. Only want of
/// memory is an error.
pub fn set_bound(
    alloc: Global,
    s: &mut Simplex,
    column: u32,
    upper: bool,
    bound: Bound,
    is_implied: bool,
) -> Result<Option<Lit>, AllocError> {
    let value = bound.value;
    if let Some(mine) = bound_at(&s.bounds, column, upper) {
        if is_as_near(upper, mine.value, value) {
            return Ok(None);
        }
    }
    if let Some(other) = bound_at(&s.bounds, column, !upper) {
        if other.value != value && is_as_near(upper, value, other.value) {
            return Ok(Some(other.by));
        }
    }
    change(&mut s.bounds, column, upper, bound)?;
    if !is_implied {
        wake(alloc, &mut s.tableau, column)?;
    }
    settle(&mut s.tableau, column, upper, value);
    Ok(None)
}
