//! The equalities that the alternatives of a clause have in common (Karr, Affine relationships among variables of a program, 1976).

use crate::shared::{terms_of, touches};
use crate::way::{Way, equation, only_value};
use bg_rows::Entry;
use bg_simplex::Lit;
use bg_solved::{Equation, common};
use bg_trail::{Engine, find_column, form_of, literal, opposite, row_atom};
use std::alloc::{AllocError, Global};

/// How many equalities that hold already are taken along.
const MOST_KNOWN: usize = 16;

/// How many terms the equalities may have.
const MOST_TERMS: usize = 24;

/// Below this all coefficients are that an equality in common may have.
const COEFFICIENTS_BELOW: u128 = 1000;

/// Copies equations behind others.
fn push_copies(
    alloc: Global,
    made: &mut Vec<Equation>,
    from: &[Equation],
) -> Result<(), AllocError> {
    for q in from {
        let entries = q.entries.to_vec(alloc)?;
        made.push(Equation {
            entries,
            bound: q.bound,
        })?;
    }
    Ok(())
}

/// Puts the terms of equations behind others, and leaves each of them once, falling.
fn add_terms(
    alloc: Global,
    terms: &mut Vec<u32>,
    equations: &[Equation],
) -> Result<(), AllocError> {
    let more = terms_of(alloc, equations)?;
    terms.extend_from_slice(&more)?;
    terms.sort()?;
    terms.dedup();
    terms.reverse();
    Ok(())
}

/// The first sums that have one value here already and hold one of these terms.
fn known(e: &Engine<'_>, terms: &[u32]) -> Result<Vec<Equation>, AllocError> {
    let mut made = Vec::new(e.alloc);
    for c in 0..e.columns.forms.len() {
        if made.len() >= MOST_KNOWN {
            return Ok(made);
        }
        let c = u32::try_from(c).unwrap_or(u32::MAX);
        if let Some(v) = only_value(&e.simplex, c) {
            if touches(form_of(&e.columns, c), terms) {
                made.push(equation(e.alloc, e, c, v)?)?;
            }
        }
    }
    Ok(made)
}

/// An alternative's equalities with those that hold already.
fn all_of(alloc: Global, w: &Way, known: &[Equation]) -> Result<Vec<Equation>, AllocError> {
    let mut made = Vec::new(alloc);
    push_copies(alloc, &mut made, &w.fixed)?;
    push_copies(alloc, &mut made, known)?;
    Ok(made)
}

/// The equalities that follow from those of each alternative.
fn met(
    alloc: Global,
    ways: &[Way],
    known: &[Equation],
    terms: &[u32],
) -> Result<Vec<Equation>, AllocError> {
    let Some((first, rest)) = ways.split_first() else {
        return Ok(Vec::new(alloc));
    };
    let mut made = all_of(alloc, first, known)?;
    for w in rest {
        let other = all_of(alloc, w, known)?;
        match common(alloc, &made, &other, terms)? {
            Some(both) => made = both,
            None => return Ok(Vec::new(alloc)),
        }
    }
    Ok(made)
}

/// Whether all coefficients are small.
fn is_small(entries: &[Entry]) -> bool {
    for t in entries {
        if t.by.unsigned_abs() >= COEFFICIENTS_BELOW {
            return false;
        }
    }
    true
}

/// Whether a sum has one value here already.
fn is_fixed(e: &Engine<'_>, form: &[Entry]) -> bool {
    match find_column(&e.columns, form, false) {
        Some(c) => only_value(&e.simplex, c).is_some(),
        None => false,
    }
}

/// The literal of a row of these entries, if there may be one.
fn push_row(
    e: &mut Engine<'_>,
    made: &mut Vec<Lit>,
    entries: Vec<Entry>,
    bound: i128,
) -> Result<(), AllocError> {
    if let Some(a) = row_atom(e, entries, bound)? {
        made.push(literal(a, true))?;
    }
    Ok(())
}

/// The literals of an equality's two rows, if it has small coefficients and doesn't hold already.
fn push_equality(
    e: &mut Engine<'_>,
    made: &mut Vec<Lit>,
    entries: Vec<Entry>,
    bound: i128,
) -> Result<(), AllocError> {
    if !is_small(&entries) || is_fixed(e, &entries) {
        return Ok(());
    }
    let (Some(down), Some(other)) = (opposite(e.alloc, &entries)?, bound.checked_neg()) else {
        return Ok(());
    };
    push_row(e, made, entries, bound)?;
    push_row(e, made, down, other)
}

/// The same, of an equation whose first coefficient may be negative.
fn push_facing(e: &mut Engine<'_>, made: &mut Vec<Lit>, q: &Equation) -> Result<(), AllocError> {
    let is_negative = match q.entries.first() {
        Some(t) => t.by < 0,
        None => return Ok(()),
    };
    if !is_negative {
        let entries = q.entries.to_vec(e.alloc)?;
        return push_equality(e, made, entries, q.bound);
    }
    match (opposite(e.alloc, &q.entries)?, q.bound.checked_neg()) {
        (Some(entries), Some(bound)) => push_equality(e, made, entries, bound),
        _ => Ok(()),
    }
}

/// The literals of the rows of the equalities that the alternatives have in common.
pub fn common_equalities(e: &mut Engine<'_>, ways: &[Way]) -> Result<Vec<Lit>, AllocError> {
    let mut made = Vec::new(e.alloc);
    let mut terms = Vec::new(e.alloc);
    for w in ways {
        add_terms(e.alloc, &mut terms, &w.fixed)?;
    }
    let known = known(e, &terms)?;
    add_terms(e.alloc, &mut terms, &known)?;
    if terms.len() > MOST_TERMS {
        return Ok(made);
    }
    for q in &met(e.alloc, ways, &known, &terms)? {
        push_facing(e, &mut made, q)?;
    }
    Ok(made)
}
