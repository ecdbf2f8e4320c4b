//! The decisions of a path, noted in a ledger and taken back.

use crate::class::{Near, class_of};
use crate::ledger::{Ledger, Seat, Undo, seat_at};
use bg_cert::{Decision, Trail};
use bg_formula::Clauses;
use std::alloc::{AllocError, Global};

/// The nearest row of a class is again the one before a change.
fn restore(ledger: &mut Ledger, undo: Undo) {
    if let Some(class) = ledger.classes.get_mut(undo.class) {
        class.nearest = undo.old;
        if undo.old.is_none() {
            for x in &class.variables {
                if let Some(classes) = ledger.standing.get_mut(*x as usize) {
                    let _ = classes.pop();
                }
            }
        }
    }
}

/// Takes back what the decisions from this number on changed. Takes time for each change.
fn take_back(ledger: &mut Ledger, from: usize) {
    for _ in 0..ledger.log.len() {
        match ledger.log.pop() {
            Some(undo) => {
                if undo.at < from {
                    let _ = ledger.log.push(undo);
                    break;
                }
                restore(ledger, undo);
            }
            None => break,
        }
    }
    ledger.told = ledger.told.min(ledger.log.len());
    ledger.seen = ledger.seen.min(from);
}

/// The class of `by` times a variable alone.
fn class_of_one(
    alloc: Global,
    ledger: &mut Ledger,
    variable: u32,
    by: i128,
) -> Result<usize, AllocError> {
    let mut entries = Vec::new(alloc);
    entries.push((variable, by))?;
    class_of(alloc, ledger, entries)
}

/// The seat of a decision's row, if it has one.
fn seat(
    alloc: Global,
    f: &Clauses,
    ledger: &mut Ledger,
    d: Decision,
) -> Result<Option<Seat>, AllocError> {
    match d {
        Decision::Atom(a, sign) => seat_at(alloc, f, ledger, a, sign),
        Decision::AtMost(x, k, sign) => {
            let by = if sign { 1 } else { -1 };
            let bound = if sign { k } else { -1 - k };
            let class = class_of_one(alloc, ledger, x, by)?;
            Ok(Some(Seat { class, bound }))
        }
    }
}

/// Counts a class among those of its variables.
fn stand(ledger: &mut Ledger, number: usize) -> Result<(), AllocError> {
    if let Some(class) = ledger.classes.get(number) {
        for x in &class.variables {
            if let Some(classes) = ledger.standing.get_mut(*x as usize) {
                classes.push(number)?;
            }
        }
    }
    Ok(())
}

/// Whether two bounds of opposite entries add up below 0.
fn clashes(a: i128, b: i128) -> bool {
    match a.checked_add(b) {
        Some(sum) => sum < 0,
        None => a < 0,
    }
}

/// The number of the decision whose row clashes with one of this bound, if the nearest row of the
/// class does.
fn clashing(ledger: &Ledger, opposite: Option<usize>, bound: i128) -> Option<usize> {
    let class = ledger.classes.get(opposite?)?;
    let near = class.nearest?;
    if clashes(near.bound, bound) {
        Some(near.at)
    } else {
        None
    }
}

/// Notes a decision's row: where it is nearer than the others of its class, it is the nearest from
/// now on. Answers the number of a decision whose row clashes with it, its own where the row is false
/// by itself.
fn note(ledger: &mut Ledger, seat: Seat, at: usize) -> Result<Option<usize>, AllocError> {
    let Some(class) = ledger.classes.get_mut(seat.class) else {
        return Ok(None);
    };
    if class.variables.is_empty() {
        return Ok(if seat.bound < 0 { Some(at) } else { None });
    }
    let old = class.nearest;
    if let Some(near) = old {
        if near.bound <= seat.bound {
            return Ok(None);
        }
    }
    let bound = seat.bound;
    class.nearest = Some(Near { bound, at });
    let opposite = class.opposite;
    ledger.log.push(Undo {
        at,
        class: seat.class,
        old,
    })?;
    if old.is_none() {
        stand(ledger, seat.class)?;
    }
    Ok(clashing(ledger, opposite, bound))
}

/// The numbers of two decisions, or of one, rising.
fn both(alloc: Global, first: usize, last: usize) -> Result<Vec<usize>, AllocError> {
    let mut numbers = Vec::new(alloc);
    numbers.push(first)?;
    if first < last {
        numbers.push(last)?;
    }
    Ok(numbers)
}

/// Notes the decisions of a path of which the first `from` were on the path that was noted last,
/// up to one whose row clashes with an earlier one or is false by itself. Answers the numbers of
/// the decisions whose rows clash, rising.
pub fn sync(
    alloc: Global,
    f: &Clauses,
    trail: &Trail,
    ledger: &mut Ledger,
    from: usize,
) -> Result<Option<Vec<usize>>, AllocError> {
    take_back(ledger, from);
    for at in ledger.seen..trail.decisions.len() {
        ledger.seen = at + 1;
        if let Some(seat) = seat(alloc, f, ledger, trail.decisions[at])? {
            if let Some(other) = note(ledger, seat, at)? {
                return Ok(Some(both(alloc, other, at)?));
            }
        }
    }
    Ok(None)
}
