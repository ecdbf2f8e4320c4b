//! Clause learning: from a conflict back to the first unique implication point, the literal of the conflict's level on which all else
//! there hangs (Silva and Sakallah 1996; Moskewicz and others 2001). The lemma denies it, and the literals of lower levels that were
//! needed; then it goes back to the highest of these levels, where the lemma makes one literal true.

use crate::base::{Base, add_clause, clause_at};
use crate::engine::{Desk, Engine, assign, go_back};
use crate::lemmas::{Lemma, keep, push_link};
use crate::literals::{atom_of, negated};
use crate::reason::{Reason, reason_of};
use crate::span::{Span, items, span_of};
use crate::trail::{Trail, at_place, level_of};
use bg_simplex::{Lit, Multiple};
use std::alloc::AllocError;

/// Notes that a literal is needed. What is true at the root needs no word.
fn note(desk: &mut Desk, trail: &Trail, l: Lit, top: usize) {
    let level = level_of(trail, l);
    if level == 0 {
        return;
    }
    let Some(seen) = desk.seen.get_mut(atom_of(l)) else {
        return;
    };
    if *seen {
        return;
    }
    *seen = true;
    if level == top {
        desk.open = desk.open.saturating_add(1);
    } else {
        desk.lower = desk.lower.saturating_add(1);
    }
}

/// Notes what a reason needs. The literal that it implies is noted already.
fn note_all(
    desk: &mut Desk,
    trail: &Trail,
    base: &Base,
    parts: &[Multiple],
    r: Reason,
    top: usize,
) {
    match r {
        Reason::Clause(c) => {
            for l in clause_at(base, c) {
                note(desk, trail, negated(*l), top);
            }
        }
        Reason::Both(a, b) => {
            note(desk, trail, a, top);
            note(desk, trail, b, top);
        }
        Reason::Rows(span) => {
            for part in items(parts, span) {
                note(desk, trail, part.lit, top);
            }
        }
        Reason::Unit(_, l) => note(desk, trail, negated(l), top),
        Reason::Decision => {}
    }
}

/// Whether a literal is noted.
fn is_noted(desk: &Desk, l: Lit) -> bool {
    match desk.seen.get(atom_of(l)) {
        Some(seen) => *seen,
        None => false,
    }
}

/// The place of the first unique implication point: goes back along the trail, and notes what the reasons of noted literals need, until
/// one literal of the level is left.
fn first_point(e: &mut Engine<'_>, top: usize) -> usize {
    for place in (0..e.trail.len).rev() {
        if let Some(l) = at_place(&e.trail, place) {
            if is_noted(&e.desk, l) {
                e.desk.open = e.desk.open.saturating_sub(1);
                if e.desk.open == 0 {
                    return place;
                }
                let why = reason_of(&e.reasons, l);
                note_all(&mut e.desk, &e.trail, &e.base, &e.reasons.parts, why, top);
            }
        }
    }
    0
}

/// No longer noted: whether it was.
fn forget(desk: &mut Desk, l: Lit) -> bool {
    match desk.seen.get_mut(atom_of(l)) {
        Some(seen) => {
            let was = *seen;
            *seen = false;
            was
        }
        None => false,
    }
}

/// Keeps what followed from the point on, in its order: the chain of the lemma's proof.
fn keep_chain(e: &mut Engine<'_>, point: usize) -> Result<Span, AllocError> {
    let from = e.lemmas.chain.len();
    for place in point.saturating_add(1)..e.trail.len {
        if let Some(l) = at_place(&e.trail, place) {
            if forget(&mut e.desk, l) {
                let why = reason_of(&e.reasons, l);
                push_link(&mut e.lemmas, &e.reasons.parts, l, why)?;
            }
        }
    }
    let len = e.lemmas.chain.len().saturating_sub(from);
    Ok(span_of(from, len))
}

/// The lemma's literals: the denials of the point, and of the noted ones below it, the last first.
fn literals(e: &mut Engine<'_>, point: usize) -> Result<Vec<Lit>, AllocError> {
    let mut made = Vec::new(e.alloc);
    for place in (0..point.saturating_add(1)).rev() {
        if e.desk.lower == 0 && place < point {
            return Ok(made);
        }
        if let Some(l) = at_place(&e.trail, place) {
            if forget(&mut e.desk, l) {
                made.push(negated(l))?;
                if place < point {
                    e.desk.lower = e.desk.lower.saturating_sub(1);
                }
            }
        }
    }
    Ok(made)
}

/// Adds the lemma, back at the level at which it makes its first literal true.
fn add_lemma(e: &mut Engine<'_>, made: &[Lit], chain: Span, end: Reason) -> Result<(), AllocError> {
    let Some(first) = made.first().copied() else {
        return Ok(());
    };
    let level = match made.get(1) {
        Some(l) => level_of(&e.trail, *l),
        None => 0,
    };
    go_back(e, level);
    let facts = match e.trail.level {
        0 => e.trail.len,
        _ => match e.trail.starts.first() {
            Some(start) => start.place,
            None => 0,
        },
    };
    let clause = add_clause(&mut e.base, made)?;
    e.lemmas.all.push(Lemma {
        clause,
        facts,
        chain,
        end,
    })?;
    assign(e, first, Reason::Clause(clause));
    Ok(())
}

/// Learns from a conflict whose highest level, above the root, is `top`.
pub fn learn(e: &mut Engine<'_>, conflict: Reason, top: usize) -> Result<(), AllocError> {
    e.counts.conflicts = e.counts.conflicts.saturating_add(1);
    e.desk.open = 0;
    e.desk.lower = 0;
    note_all(
        &mut e.desk,
        &e.trail,
        &e.base,
        &e.reasons.parts,
        conflict,
        top,
    );
    let end = keep(&mut e.lemmas, &e.reasons.parts, conflict)?;
    go_back(e, top);
    let point = first_point(e, top);
    let chain = keep_chain(e, point)?;
    let made = literals(e, point)?;
    add_lemma(e, &made, chain, end)
}
