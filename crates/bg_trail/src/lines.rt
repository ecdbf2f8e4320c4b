//! What the simplex tells: that bounds clash, and bounds that its lines imply.

use crate::columns::{Mark, count_marks, implied, mark_at, open_on};
use crate::engine::{Engine, assign};
use crate::literals::{literal, negated};
use crate::reason::Reason;
use crate::span::span_of;
use crate::trail::is_open;
use bg_simplex::{Told, check, explain, tell};
use std::alloc::AllocError;

/// How many entries a line may have that is asked for bounds.
const LONGEST_LINE: usize = 40;

/// Why the bounds that are set can't all hold, if the simplex finds that they can't.
pub fn clash(e: &mut Engine<'_>) -> Result<Option<Reason>, AllocError> {
    let from = e.reasons.parts.len();
    if check(e.alloc, &mut e.simplex, &mut e.reasons.parts)? {
        let len = e.reasons.parts.len().saturating_sub(from);
        return Ok(Some(Reason::Rows(span_of(from, len))));
    }
    Ok(None)
}

/// Decides an atom of the column by a bound that a line tells, if it does.
fn spread_to(e: &mut Engine<'_>, told: Told, mark: Mark) -> Result<(), AllocError> {
    if !is_open(&e.trail, literal(mark.atom, true)) {
        return Ok(());
    }
    if let Some(value) = implied(told.upper, told.value, mark) {
        let p = literal(mark.atom, value);
        let from = e.reasons.parts.len();
        if explain(&e.simplex, told, negated(p), &mut e.reasons.parts)? {
            let len = e.reasons.parts.len().saturating_sub(from);
            assign(e, p, Reason::Rows(span_of(from, len)));
        }
    }
    Ok(())
}

/// Decides the atoms of a column by a bound that a line tells.
fn spread(e: &mut Engine<'_>, told: Told) -> Result<(), AllocError> {
    for i in 0..count_marks(&e.columns, told.column) {
        if open_on(&e.columns, told.column) == 0 {
            return Ok(());
        }
        if let Some(mark) = mark_at(&e.columns, told.column, i) {
            spread_to(e, told, mark)?;
        }
    }
    Ok(())
}

/// Decides atoms by the bounds that lines tell of their columns.
pub fn spread_all(e: &mut Engine<'_>) -> Result<(), AllocError> {
    e.desk.told.clear();
    tell(
        &mut e.simplex,
        &e.columns.open,
        LONGEST_LINE,
        &mut e.desk.told,
    )?;
    for i in 0..e.desk.told.len() {
        if let Some(told) = e.desk.told.get(i) {
            let told = *told;
            spread(e, told)?;
        }
    }
    Ok(())
}
