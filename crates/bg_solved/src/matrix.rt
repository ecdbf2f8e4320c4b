//! Matrices of fractions, and Gauss-Jordan elimination.
use bg_simplex::{Fraction, inverse, is_lost, negated, plus, times, whole};

/// Rows of `width` cells each, one behind the other.
#[derive(Drop)]
pub struct Matrix {
    pub width: usize,
    pub cells: Vec<Fraction>,
}

/// The number of rows.
pub fn count_rows(m: &Matrix) -> usize {
    m.cells.len().checked_div(m.width).unwrap_or(0)
}

/// The place of a cell.
fn place(m: &Matrix, row: usize, column: usize) -> usize {
    row.saturating_mul(m.width).saturating_add(column)
}

/// A cell.
pub fn cell(m: &Matrix, row: usize, column: usize) -> Fraction {
    match m.cells.get(place(m, row, column)) {
        Some(v) => *v,
        None => whole(0),
    }
}

/// Gives a cell a value.
fn put(m: &mut Matrix, row: usize, column: usize, v: Fraction) {
    let at = place(m, row, column);
    if let Some(place) = m.cells.get_mut(at) {
        *place = v;
    }
}

/// Whether a cell isn't 0.
pub fn is_filled(m: &Matrix, row: usize, column: usize) -> bool {
    cell(m, row, column).num != 0
}

/// Whether a number left 128 bits.
pub fn has_lost(m: &Matrix) -> bool {
    for v in &m.cells {
        if is_lost(*v) {
            return true;
        }
    }
    false
}

/// Two rows change places.
fn swap(m: &mut Matrix, a: usize, b: usize) {
    for column in 0..m.width {
        let (x, y) = (cell(m, a, column), cell(m, b, column));
        put(m, a, column, y);
        put(m, b, column, x);
    }
}

/// A row, so many times.
fn scale(m: &mut Matrix, row: usize, by: Fraction) {
    for column in 0..m.width {
        let v = times(cell(m, row, column), by);
        put(m, row, column, v);
    }
}

/// Adds so many times another row to a row.
fn add(m: &mut Matrix, row: usize, by: Fraction, other: usize) {
    for column in 0..m.width {
        let more = times(cell(m, other, column), by);
        let v = plus(cell(m, row, column), more);
        put(m, row, column, v);
    }
}

/// The first row from this one on in which a column is filled.
fn first_filled(m: &Matrix, from: usize, column: usize) -> Option<usize> {
    for row in from..count_rows(m) {
        if is_filled(m, row, column) {
            return Some(row);
        }
    }
    None
}

/// The column becomes 1 in this row, where it is filled, and 0 in each other one.
fn clear_column(m: &mut Matrix, row: usize, column: usize) {
    let by = inverse(cell(m, row, column));
    scale(m, row, by);
    for other in 0..count_rows(m) {
        if other != row && is_filled(m, other, column) {
            let by = negated(cell(m, other, column));
            add(m, other, by, row);
        }
    }
}

/// Brings the first columns into reduced echelon form.
pub fn eliminate(m: &mut Matrix, columns: usize) {
    let mut done: usize = 0;
    for column in 0..columns {
        if let Some(row) = first_filled(m, done, column) {
            swap(m, done, row);
            clear_column(m, done, column);
            done = done.saturating_add(1);
        }
    }
}
