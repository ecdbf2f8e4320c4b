//! The start: the clauses and units of the formula, the equalities that hold at the root, and the columns of its rows.

use crate::aim::aim;
use crate::near::refute_near;
use crate::pairs::{root_pairs, solve_pairs};
use bg_formula::{Atom, Literal};
use bg_simplex::{Lit, Multiple};
use bg_trail::{
    Engine, Reason, add_clause, assign, atom_of, is_false, is_met, is_open, literal, named,
    negated, propagate, seat, span_of, units,
};
use std::alloc::AllocError;

/// Puts the literals of a clause of the formula, in its order, in the place of those in a list.
fn put_named(made: &mut Vec<Lit>, clause: &[Literal]) -> Result<(), AllocError> {
    made.clear();
    for l in clause {
        made.push(named(l))?;
    }
    Ok(())
}

/// Adds the clauses of the formula.
fn add_clauses(e: &mut Engine<'_>) -> Result<(), AllocError> {
    let f = e.formula;
    let mut made = Vec::new(e.alloc);
    for clause in &f.clauses {
        put_named(&mut made, clause)?;
        add_clause(&mut e.base, &made)?;
    }
    Ok(())
}

/// Makes a literal true at the root. Answers the reason where it is false.
fn require(e: &mut Engine<'_>, l: Lit, why: Reason) -> Option<Reason> {
    if is_false(&e.trail, l) {
        return Some(why);
    }
    if is_open(&e.trail, l) {
        assign(e, l, why);
    }
    None
}

/// Makes the clauses of one literal true. Answers one that is false.
fn add_units(e: &mut Engine<'_>) -> Option<Reason> {
    let f = e.formula;
    for (k, clause) in f.clauses.iter().enumerate() {
        let why = Reason::Clause(u32::try_from(k).unwrap_or(u32::MAX));
        match clause.as_slice() {
            [] => return Some(why),
            [l] => {
                let found = require(e, named(l), why);
                if found.is_some() {
                    return found;
                }
            }
            _ => {}
        }
    }
    None
}

/// Whether the set has a candidate.
fn is_member(set: &[bool], c: usize) -> bool {
    match set.get(c) {
        Some(yes) => *yes,
        None => false,
    }
}

/// A candidate that plays a part, and its atom.
#[derive(Clone, Copy)]
struct Part {
    candidate: usize,
    atom: u32,
}

/// The candidates that play a part, in their order.
fn parts_of(e: &Engine<'_>) -> Result<Vec<Part>, AllocError> {
    let mut made = Vec::new(e.alloc);
    for (candidate, atom) in e.formula.candidates.iter().enumerate() {
        if let Some(a) = atom {
            made.push(Part {
                candidate,
                atom: *a,
            })?;
        }
    }
    Ok(made)
}

/// Makes the atoms of the set's candidates true. Answers one that is false.
fn add_members(e: &mut Engine<'_>, parts: &[Part], set: &[bool]) -> Option<Reason> {
    for part in parts {
        if is_member(set, part.candidate) {
            let l = literal(part.atom, true);
            let why = Reason::Unit(u32::try_from(part.candidate).unwrap_or(u32::MAX), l);
            let found = require(e, l, why);
            if found.is_some() {
                return found;
            }
        }
    }
    None
}

/// Makes the atoms of candidates outside the set false. They stand in clauses as denials alone, so nothing hangs on it.
fn leave_out(e: &mut Engine<'_>, parts: &[Part], set: &[bool]) {
    let f = e.formula;
    for part in parts {
        let l = literal(part.atom, false);
        let is_truth = matches!(f.atoms.get(part.atom as usize), Some(Atom::Truth(_)));
        if is_truth && !is_member(set, part.candidate) && is_open(&e.trail, l) {
            assign(e, l, Reason::Decision);
        }
    }
}

/// Which literals stand in a clause that no literal makes true yet.
fn open_literals(e: &Engine<'_>) -> Result<Vec<bool>, AllocError> {
    let mut named_in = vec![in e.alloc; false; e.trail.atoms.len()]?;
    for clause in &e.formula.clauses {
        if !is_met(&e.trail, clause) {
            for l in clause {
                if let Some(is_named) = named_in.get_mut(l.atom as usize) {
                    *is_named = true;
                }
            }
        }
    }
    Ok(named_in)
}

/// Says of an atom that it needs no seat.
fn leave_standing(wanted: &mut [bool], l: Lit) {
    if let Some(is_wanted) = wanted.get_mut(atom_of(l)) {
        *is_wanted = false;
    }
}

/// Which atoms need a seat: those that a clause names which isn't true yet, and those that have a value. Those of these literals need
/// none: over the terms that stay their rows say nothing.
fn wanted(e: &Engine<'_>, settled: &[Lit]) -> Result<Vec<bool>, AllocError> {
    let mut made = open_literals(e)?;
    for (a, is_wanted) in made.iter_mut().enumerate() {
        let a = u32::try_from(a).unwrap_or(u32::MAX);
        *is_wanted = *is_wanted || !is_open(&e.trail, literal(a, true));
    }
    for l in settled {
        leave_standing(&mut made, *l);
    }
    Ok(made)
}

/// Decides an atom whose row has no terms left. Answers why it can't be.
fn know(e: &mut Engine<'_>, a: u32, value: bool) -> Result<Option<Reason>, AllocError> {
    let p = literal(a, value);
    let from = e.reasons.parts.len();
    e.reasons.parts.push(Multiple {
        lit: negated(p),
        times: 1,
    })?;
    Ok(require(e, p, Reason::Rows(span_of(from, 1))))
}

/// Seats an atom of the formula, if it has a row.
pub fn seat_atom(e: &mut Engine<'_>, a: u32) -> Result<Option<Reason>, AllocError> {
    let f = e.formula;
    let Some(Atom::Holds(both)) = f.atoms.get(a as usize) else {
        return Ok(None);
    };
    match seat(e, a, &both.row)? {
        Some(value) => know(e, a, value),
        None => Ok(None),
    }
}

/// Seats the atoms that need it; those of these literals don't. Answers why one can't have its value.
fn seat_all(e: &mut Engine<'_>, settled: &[Lit]) -> Result<Option<Reason>, AllocError> {
    let wanted = wanted(e, settled)?;
    for (a, is_wanted) in wanted.iter().enumerate() {
        if *is_wanted {
            let found = seat_atom(e, u32::try_from(a).unwrap_or(u32::MAX))?;
            if found.is_some() {
                return Ok(found);
            }
        }
    }
    Ok(None)
}

/// Makes true what the formula and the set say by themselves.
fn add_all(e: &mut Engine<'_>, set: &[bool]) -> Result<Option<Reason>, AllocError> {
    add_clauses(e)?;
    let found = add_units(e);
    if found.is_some() {
        return Ok(found);
    }
    let parts = parts_of(e)?;
    let found = add_members(e, &parts, set);
    if found.is_some() {
        return Ok(found);
    }
    leave_out(e, &parts, set);
    match units(e) {
        Some(c) => Ok(Some(Reason::Clause(c))),
        None => Ok(None),
    }
}

/// Brings the search to the root: all that follows from the formula and the set without a decision is true, and the terms' values begin
/// at their targets. Answers why it can't be.
pub fn start(
    e: &mut Engine<'_>,
    set: &[bool],
    targets: &[i128],
) -> Result<Option<Reason>, AllocError> {
    let found = add_all(e, set)?;
    if found.is_some() {
        return Ok(found);
    }
    let pairs = root_pairs(e)?;
    let found = refute_near(e, &pairs)?;
    if found.is_some() {
        return Ok(found);
    }
    let settled = solve_pairs(e, &pairs)?;
    let found = seat_all(e, &settled)?;
    if found.is_some() {
        return Ok(found);
    }
    aim(e, targets)?;
    e.trail.rows = 0;
    propagate(e)
}
