//! Equalities are solved.
use crate::equality::{Equality, Solved};
use crate::rewrite::{Rewritten, denied, rewrite};
use bg_rows::{Entry, Row, coefficient};
use bg_simplex::Lit;
use std::alloc::{AllocError, Global};

/// Whether each entry is the negation of the other's.
fn are_negated(a: &[Entry], b: &[Entry]) -> bool {
    if a.len() != b.len() {
        return false;
    }
    for i in 0..a.len() {
        if let (Some(t), Some(u)) = (a.get(i), b.get(i)) {
            if t.variable != u.variable || t.by.checked_neg() != Some(u.by) {
                return false;
            }
        }
    }
    true
}

/// Whether two rows together say that a sum is a number.
pub fn are_opposite(a: &Row, b: &Row) -> bool {
    a.bound.checked_neg() == Some(b.bound) && are_negated(&a.entries, &b.entries)
}

/// The last variable that stands once in these entries, with either sign.
fn last_unit(entries: &[Entry]) -> Option<Entry> {
    let mut found = None;
    for t in entries {
        if t.by == 1 || t.by == -1 {
            found = Some(*t);
        }
    }
    found
}

/// Puts an equality behind the others; from now on it eliminates its term.
fn push(s: &mut Solved, equality: Equality) -> Result<(), AllocError> {
    let number = u32::try_from(s.equalities.len()).ok();
    let term = equality.term as usize;
    s.equalities.push(equality)?;
    if let Some(place) = s.of_term.get_mut(term) {
        *place = number;
    }
    Ok(())
}

/// The second of two rows without terms that are eliminated, where this is what the first one comes to: of opposite rows what is left
/// is opposite too.
fn other_side(
    alloc: Global,
    s: &Solved,
    a: &Rewritten,
    up_row: &Row,
    down_row: &Row,
) -> Result<Option<Rewritten>, AllocError> {
    if are_opposite(up_row, down_row) {
        denied(alloc, a)
    } else {
        rewrite(alloc, s, down_row)
    }
}

/// Learns that two literals' rows, which hold for good, say that a sum is a number. True where over the terms that stay they say nothing
/// from now on: a term stands in the sum once, and is eliminated, or the sum has no terms left and is 0. Only want of memory is an error.
pub fn learn_equality(
    alloc: Global,
    s: &mut Solved,
    up: Lit,
    up_row: &Row,
    down: Lit,
    down_row: &Row,
) -> Result<bool, AllocError> {
    let Some(a) = rewrite(alloc, s, up_row)? else {
        return Ok(false);
    };
    let Some(b) = other_side(alloc, s, &a, up_row, down_row)? else {
        return Ok(false);
    };
    if !are_opposite(&a.row, &b.row) {
        return Ok(false);
    }
    let Some(unit) = last_unit(&a.row.entries) else {
        return Ok(a.row.entries.is_empty() && a.row.bound == 0);
    };
    let equality = if unit.by > 0 {
        solved(unit.variable, up, a, down, b)
    } else {
        solved(unit.variable, down, b, up, a)
    };
    push(s, equality)?;
    Ok(true)
}

/// The equality of two rows, solved for a term that stands once in the first.
fn solved(term: u32, up: Lit, a: Rewritten, down: Lit, b: Rewritten) -> Equality {
    Equality {
        term,
        up,
        down,
        row: a.row,
        opposite: b.row,
        up_deps: a.deps,
        down_deps: b.deps,
    }
}
