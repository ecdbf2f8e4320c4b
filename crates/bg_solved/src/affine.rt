//! Equalities that two sets of equalities have in common, in the manner of Karr (Affine relationships among variables of a program,
//! 1976): the sums that are sums of either set's, found by the sum of both spaces (the algorithm of Zassenhaus).
use crate::equation::Equation;
use crate::matrix::{Matrix, cell, count_rows, eliminate, has_lost, is_filled};
use bg_rows::{Entry, coefficient};
use bg_simplex::{Fraction, common_multiple, whole};
use std::alloc::{AllocError, Global};

/// Puts the coefficients of these terms and the bound behind the cells.
fn push_equation(cells: &mut Vec<Fraction>, e: &Equation, terms: &[u32]) -> Result<(), AllocError> {
    for x in terms {
        cells.push(whole(coefficient(&e.entries, *x)))?;
    }
    cells.push(whole(e.bound))?;
    Ok(())
}

/// The rows of both sets: those of `a` twice side by side, those of `b` beside zeros.
fn both(
    alloc: Global,
    a: &[Equation],
    b: &[Equation],
    terms: &[u32],
    half: usize,
) -> Result<Matrix, AllocError> {
    let mut cells = Vec::new(alloc);
    for e in a {
        push_equation(&mut cells, e, terms)?;
        push_equation(&mut cells, e, terms)?;
    }
    for e in b {
        push_equation(&mut cells, e, terms)?;
        let more = cells.len().saturating_add(half);
        cells.resize(more, whole(0))?;
    }
    let width = half.saturating_mul(2);
    Ok(Matrix { width, cells })
}

/// Whether the cells of a row in these columns are all 0.
fn is_empty(m: &Matrix, row: usize, from: usize, to: usize) -> bool {
    for column in from..to {
        if is_filled(m, row, column) {
            return false;
        }
    }
    true
}

/// The second halves of the rows of which the first half is 0, and the second isn't.
fn second_halves(alloc: Global, m: &Matrix, half: usize) -> Result<Matrix, AllocError> {
    let mut cells = Vec::new(alloc);
    for row in 0..count_rows(m) {
        if is_empty(m, row, 0, half) && !is_empty(m, row, half, m.width) {
            for column in half..m.width {
                cells.push(cell(m, row, column))?;
            }
        }
    }
    Ok(Matrix { width: half, cells })
}

/// The least common denominator of the first cells of a row; 0 past 128 bits.
fn denominator(m: &Matrix, row: usize, columns: usize) -> i128 {
    let mut all = 1;
    for column in 0..columns {
        all = common_multiple(all, cell(m, row, column).den);
    }
    all
}

/// So many times a fraction, where that is a whole number within 128 bits.
fn scaled(f: Fraction, by: i128) -> Option<i128> {
    if by.checked_rem(f.den) == Some(0) {
        f.num.checked_mul(by.checked_div(f.den)?)
    } else {
        None
    }
}

/// The coefficients of a row, so many times, from the last term to the first; none past 128 bits.
fn entries_of(
    alloc: Global,
    m: &Matrix,
    row: usize,
    terms: &[u32],
    by: i128,
) -> Result<Option<Vec<Entry>>, AllocError> {
    let mut entries = Vec::new(alloc);
    for at in (0..terms.len()).rev() {
        if let (Some(x), true) = (terms.get(at), is_filled(m, row, at)) {
            let Some(k) = scaled(cell(m, row, at), by) else {
                return Ok(None);
            };
            entries.push(Entry {
                variable: *x,
                by: k,
            })?;
        }
    }
    Ok(Some(entries))
}

/// The equality of a row, with the least whole coefficients: 1 is one of the row's own, so they have no common divisor. None where it
/// has no terms, no whole numbers meet it, or one leaves 128 bits.
fn equation_of(
    alloc: Global,
    m: &Matrix,
    row: usize,
    terms: &[u32],
) -> Result<Option<Equation>, AllocError> {
    let by = denominator(m, row, terms.len());
    let Some(bound) = scaled(cell(m, row, terms.len()), by) else {
        return Ok(None);
    };
    match entries_of(alloc, m, row, terms, by)? {
        Some(entries) if !entries.is_empty() => Ok(Some(Equation { entries, bound })),
        _ => Ok(None),
    }
}

/// The equalities over these terms that follow from either set, reduced, each with whole coefficients without a common divisor; none
/// where a number leaves 128 bits. `terms` are to fall, so that entries rise; the first of them are eliminated first. Only want of memory is an
/// error.
pub fn common(
    alloc: Global,
    a: &[Equation],
    b: &[Equation],
    terms: &[u32],
) -> Result<Option<Vec<Equation>>, AllocError> {
    let half = terms.len().saturating_add(1);
    let mut all = both(alloc, a, b, terms, half)?;
    eliminate(&mut all, half);
    if has_lost(&all) {
        return Ok(None);
    }
    let mut met = second_halves(alloc, &all, half)?;
    eliminate(&mut met, half);
    if has_lost(&met) {
        return Ok(None);
    }
    let mut found = Vec::new(alloc);
    for row in 0..count_rows(&met) {
        if let Some(e) = equation_of(alloc, &met, row, terms)? {
            found.push(e)?;
        }
    }
    Ok(Some(found))
}
