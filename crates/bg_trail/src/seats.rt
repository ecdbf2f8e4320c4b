//! Atoms of rows take their seats: the reduced row, and the column that it bounds.

use crate::columns::{Limit, Mark, column_of, face};
use crate::engine::{Engine, grow};
use crate::literals::{atom_of, literal};
use crate::table::{push_row, row_number};
use crate::trail::is_open;
use bg_formula::{Linear, deny_row};
use bg_rows::{Entry, Refused, Row};
use bg_simplex::Lit;
use bg_solved::{Reduced, as_given, is_reduced, made_row, reduce};
use std::alloc::{AllocError, Global};

/// Notes what an atom says of a column.
fn note_limit(e: &mut Engine<'_>, a: u32, limit: Limit) -> Result<(), AllocError> {
    if let Some(place) = e.columns.limits.get_mut(a as usize) {
        *place = Some(limit);
    }
    let column = limit.column as usize;
    if is_open(&e.trail, literal(a, true)) {
        if let Some(n) = e.columns.open.get_mut(column) {
            *n = n.saturating_add(1);
        }
    }
    if let Some(atoms) = e.columns.atoms.get_mut(column) {
        atoms.push(Mark {
            atom: a,
            upper: limit.upper,
            value: limit.value,
        })?;
    }
    Ok(())
}

/// Notes what an atom's reduced row says of its column, if it has terms.
fn sit(e: &mut Engine<'_>, a: u32, row: &Row) -> Result<(), AllocError> {
    let Some(f) = face(row) else {
        e.columns.broken = e.columns.broken || !row.entries.is_empty();
        return Ok(());
    };
    let column = column_of(
        e.alloc,
        &mut e.columns,
        &mut e.simplex,
        &row.entries,
        f.turned,
    )?;
    let limit = Limit {
        column,
        upper: !f.turned,
        value: f.value,
    };
    note_limit(e, a, limit)
}

/// Keeps how an atom's row was reduced.
fn keep_reduced(e: &mut Engine<'_>, a: u32, r: Reduced) -> Result<(), AllocError> {
    let at = u32::try_from(e.columns.reduced.len()).ok();
    if let Some(place) = e.columns.of_atom.get_mut(a as usize) {
        *place = at;
        e.columns.reduced.push(r)?;
    }
    Ok(())
}

/// Gives an atom its reduced row, and its column. Answers its value where that row has no terms, and so decides itself.
fn settle(e: &mut Engine<'_>, a: u32, row: &Row, r: Reduced) -> Result<Option<bool>, AllocError> {
    sit(e, a, row)?;
    keep_reduced(e, a, r)?;
    if row.entries.is_empty() {
        Ok(Some(row.bound >= 0))
    } else {
        Ok(None)
    }
}

/// Reduces an atom's row, and gives the atom its column. Answers its value where its reduced row has no terms, and so decides itself.
pub fn seat(e: &mut Engine<'_>, a: u32, row: &Row) -> Result<Option<bool>, AllocError> {
    if is_reduced(&e.solved, row) {
        let r = as_given(e.alloc);
        return settle(e, a, row, r);
    }
    let Some((row, r)) = reduce(e.alloc, &e.solved, row)? else {
        e.columns.broken = true;
        return Ok(None);
    };
    if r.divisor > 1 {
        e.counts.tightened = e.counts.tightened.saturating_add(1);
    }
    settle(e, a, &row, r)
}

/// How the row of a literal's atom was reduced, if the atom has a seat.
pub fn reduced_of<'a>(e: &'a Engine<'_>, l: Lit) -> Option<&'a Reduced> {
    match e.columns.of_atom.get(atom_of(l)) {
        Some(Some(at)) => e.columns.reduced.get(*at as usize),
        _ => None,
    }
}

/// A row with its denial, if no number leaves 128 bits.
fn with_denial(alloc: Global, row: Row) -> Result<Option<Linear>, AllocError> {
    match deny_row(alloc, row) {
        Ok(both) => Ok(Some(both)),
        Err(Refused::Range(_)) => Ok(None),
        Err(Refused::Memory) => Err(AllocError),
    }
}

/// The atom of a row of the table: they stand behind the formula's.
fn atom_of_row(e: &Engine<'_>, r: usize) -> u32 {
    u32::try_from(e.formula.atoms.len().saturating_add(r)).unwrap_or(u32::MAX)
}

/// Takes a row into the table, and seats its atom, if there is room.
fn add_row(e: &mut Engine<'_>, row: Row) -> Result<Option<u32>, AllocError> {
    let a = atom_of_row(e, e.table.rows.len());
    if a as usize >= e.room {
        return Ok(None);
    }
    let Some(both) = with_denial(e.alloc, row)? else {
        return Ok(None);
    };
    grow(e)?;
    let _known = seat(e, a, &both.row)?;
    push_row(e.alloc, &mut e.table, both)?;
    Ok(Some(a))
}

/// The atom of a row of the certificate's own, made where there was none; none where the entries are no row's, or the table is full.
pub fn row_atom(
    e: &mut Engine<'_>,
    entries: Vec<Entry>,
    bound: i128,
) -> Result<Option<u32>, AllocError> {
    let Some(row) = made_row(entries, bound) else {
        return Ok(None);
    };
    match row_number(e.alloc, &e.table, &row)? {
        Some(r) => Ok(Some(atom_of_row(e, r as usize))),
        None => add_row(e, row),
    }
}
