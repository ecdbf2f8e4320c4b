//! The trail's bounds: each goes to the simplex, and decides the other atoms of its column.

use crate::columns::{Limit, Mark, count_marks, implied, limit_of, mark_at, open_on};
use crate::engine::{Engine, assign};
use crate::literals::{literal, negated};
use crate::reason::{Reason, reason_of};
use crate::trail::{at_place, is_open};
use bg_simplex::{Bound, Lit, set_bound};
use std::alloc::AllocError;

/// Decides an atom of the column by what a true literal says of it, if it does.
fn decide_atom(e: &mut Engine<'_>, l: Lit, limit: Limit, mark: Mark) {
    if !is_open(&e.trail, literal(mark.atom, true)) {
        return;
    }
    if let Some(value) = implied(limit.upper, limit.value, mark) {
        let p = literal(mark.atom, value);
        assign(e, p, Reason::Both(l, negated(p)));
    }
}

/// Decides the atoms of the column by what a true literal says of it.
fn decide_column(e: &mut Engine<'_>, l: Lit, limit: Limit) {
    for i in 0..count_marks(&e.columns, limit.column) {
        if open_on(&e.columns, limit.column) == 0 {
            return;
        }
        if let Some(mark) = mark_at(&e.columns, limit.column, i) {
            decide_atom(e, l, limit, mark);
        }
    }
}

/// Sets the bound of a true literal, unless another one of its column, which is set, implies it. Answers why it can't hold.
fn set(e: &mut Engine<'_>, l: Lit) -> Result<Option<Reason>, AllocError> {
    let why = reason_of(&e.reasons, l);
    if matches!(why, Reason::Both(_, _)) {
        return Ok(None);
    }
    let Some(limit) = limit_of(&e.columns, l) else {
        return Ok(None);
    };
    let bound = Bound {
        value: limit.value,
        by: l,
    };
    match set_bound(
        e.alloc,
        &mut e.simplex,
        limit.column,
        limit.upper,
        bound,
        matches!(why, Reason::Rows(_)),
    )? {
        Some(other) => Ok(Some(Reason::Both(l, other))),
        None => {
            decide_column(e, l, limit);
            Ok(None)
        }
    }
}

/// Sets the bounds of the literals that became true. Answers why one can't hold.
pub fn set_bounds(e: &mut Engine<'_>) -> Result<Option<Reason>, AllocError> {
    for _ in 0..e.trail.order.len() {
        let Some(l) = at_place(&e.trail, e.trail.rows) else {
            return Ok(None);
        };
        e.trail.rows = e.trail.rows.saturating_add(1);
        let found = set(e, l)?;
        if found.is_some() {
            return Ok(found);
        }
    }
    Ok(None)
}
