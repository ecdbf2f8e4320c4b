//! A path on which no clause is open: the values there, if all are whole, or a decision more.

use bg_formula::{Atom, Clauses};
use bg_rows::{Entry, Row};
use bg_simplex::{Fraction, floor, is_broken, is_whole, value};
use bg_solved::complete;
use bg_trail::{Engine, decide, is_open, is_spent, literal, row_atom, truth};
use std::alloc::AllocError;

/// How often the search may decide that a term without a whole value is at most a number.
const MOST_BRANCHES: usize = 200;

/// What became of a path on which no clause is open.
#[derive(Drop)]
pub enum Leaf {
    /// The atoms' values, with which all clauses hold.
    Values(Vec<bool>),
    /// A decision more was made.
    GoesOn,
    /// It isn't known.
    Unknown,
}

/// The value that the simplex has for a term.
fn value_of(e: &Engine<'_>, x: usize) -> Fraction {
    match e.columns.terms.get(x) {
        Some(Some(c)) => value(&e.simplex, *c),
        _ => Fraction { num: 0, den: 1 },
    }
}

/// The first term whose value isn't whole.
fn split_term(e: &Engine<'_>) -> Option<u32> {
    for x in 0..e.formula.terms {
        if !is_whole(value_of(e, x as usize)) {
            return Some(x);
        }
    }
    None
}

/// The terms' values, where all are whole; None where a number leaves 128 bits.
fn point(e: &Engine<'_>) -> Result<Option<Vec<i128>>, AllocError> {
    let mut values = vec![in e.alloc; 0; e.formula.terms as usize]?;
    for (x, v) in values.iter_mut().enumerate() {
        *v = value_of(e, x).num;
    }
    if complete(&e.solved, &mut values) {
        Ok(Some(values))
    } else {
        Ok(None)
    }
}

/// Whether a row holds at a point; None where a number leaves 128 bits.
fn holds(row: &Row, point: &[i128]) -> Option<bool> {
    let mut sum: i128 = 0;
    for t in &row.entries {
        let v = *point.get(t.variable as usize)?;
        sum = sum.checked_add(t.by.checked_mul(v)?)?;
    }
    Some(sum <= row.bound)
}

/// The value of an atom at a point: that of its row, or the one that the path gave it.
fn worth(f: &Clauses, e: &Engine<'_>, a: u32, point: &[i128]) -> Option<bool> {
    match f.atoms.get(a as usize) {
        Some(Atom::Holds(both)) => holds(&both.row, point),
        _ => Some(matches!(truth(&e.trail, literal(a, true)), Some(true))),
    }
}

/// The values of all atoms at a point.
fn worths(e: &Engine<'_>, point: &[i128]) -> Result<Leaf, AllocError> {
    let mut made = Vec::new(e.alloc);
    for a in 0..e.formula.atoms.len() {
        let a = u32::try_from(a).unwrap_or(u32::MAX);
        match worth(e.formula, e, a, point) {
            Some(v) => made.push(v)?,
            None => return Ok(Leaf::Unknown),
        }
    }
    Ok(Leaf::Values(made))
}

/// Decides that a term is at most the whole number below its value.
fn branch(e: &mut Engine<'_>, x: u32) -> Result<Leaf, AllocError> {
    if e.counts.branches >= MOST_BRANCHES || is_spent(e) {
        return Ok(Leaf::Unknown);
    }
    e.counts.branches = e.counts.branches.saturating_add(1);
    let bound = floor(value_of(e, x as usize));
    let entries = Vec::from_array(e.alloc, [Entry { variable: x, by: 1 }])?;
    match row_atom(e, entries, bound)? {
        Some(a) => {
            let l = literal(a, true);
            if is_open(&e.trail, l) {
                decide(e, l);
                Ok(Leaf::GoesOn)
            } else {
                Ok(Leaf::Unknown)
            }
        }
        None => Ok(Leaf::Unknown),
    }
}

/// Looks at a path on which no clause is open, and on which nothing clashes.
pub fn settle(e: &mut Engine<'_>) -> Result<Leaf, AllocError> {
    if e.columns.broken || is_broken(&e.simplex) {
        return Ok(Leaf::Unknown);
    }
    if let Some(x) = split_term(e) {
        return branch(e, x);
    }
    match point(e)? {
        Some(values) => worths(e, &values),
        None => Ok(Leaf::Unknown),
    }
}
