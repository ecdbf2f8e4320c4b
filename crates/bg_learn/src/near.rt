//! A claim that equalities near it refute: of those that hold at the root only these are solved then.

use crate::pairs::{Pair, row_of, solve_pair};
use crate::start::seat_atom;
use crate::uses::near_pairs;
use bg_formula::Literal;
use bg_simplex::Lit;
use bg_solved::{Solved, new_solved, reduce};
use bg_trail::{Engine, Reason, is_false, named, next_literal};
use std::alloc::AllocError;

/// How many equalities there are at the least where those near the claim are tried first.
const LEAST_PAIRS: usize = 32;

/// The clause that would be decided first, and its number: mostly the claim's.
fn claim_of<'a>(e: &mut Engine<'a>) -> Option<(u32, &'a [Literal])> {
    let f = e.formula;
    next_literal(e)?;
    let at = e.front.searched.from;
    let clause = f.clauses.get(at)?;
    Some((u32::try_from(at).ok()?, clause.as_slice()))
}

/// The clause's literals that aren't false; nothing where one has no row.
fn open_sides(e: &Engine<'_>, clause: &[Literal]) -> Result<Option<Vec<Lit>>, AllocError> {
    let mut made = Vec::new(e.alloc);
    for l in clause {
        let l = named(l);
        if !is_false(&e.trail, l) {
            if row_of(e.formula, l).is_none() {
                return Ok(None);
            }
            made.push(l)?;
        }
    }
    Ok(Some(made))
}

/// The equalities that are near these literals' rows, solved; nothing where too many are near.
fn solved_near(
    e: &Engine<'_>,
    pairs: &[Pair],
    sides: &[Lit],
) -> Result<Option<Solved>, AllocError> {
    let Some(taken) = near_pairs(e, pairs, sides)? else {
        return Ok(None);
    };
    let mut s = new_solved(e.alloc, e.formula.terms)?;
    for (at, pair) in pairs.iter().enumerate() {
        if let Some(true) = taken.get(at) {
            let _is_settled = solve_pair(e.alloc, e.formula, &mut s, *pair)?;
        }
    }
    Ok(Some(s))
}

/// Whether a literal's row is false by solved equalities alone.
fn is_refuted(e: &Engine<'_>, s: &Solved, l: Lit) -> Result<bool, AllocError> {
    let Some(row) = row_of(e.formula, l) else {
        return Ok(false);
    };
    match reduce(e.alloc, s, row)? {
        Some((left, _how)) => Ok(left.entries.is_empty() && left.bound < 0),
        None => Ok(false),
    }
}

/// Whether the row of each of these literals is false by solved equalities alone.
fn are_refuted(e: &Engine<'_>, s: &Solved, sides: &[Lit]) -> Result<bool, AllocError> {
    for l in sides {
        if !is_refuted(e, s, *l)? {
            return Ok(false);
        }
    }
    Ok(true)
}

/// Makes the clause's literals false, whose rows are. Answers why the clause can't be.
fn close(e: &mut Engine<'_>, at: u32, clause: &[Literal]) -> Result<Option<Reason>, AllocError> {
    for l in clause {
        if !is_false(&e.trail, named(l)) {
            let found = seat_atom(e, l.atom)?;
            if found.is_some() {
                return Ok(found);
            }
        }
    }
    Ok(Some(Reason::Clause(at)))
}

/// Why the claim can't be, where equalities near it say so: they alone are solved then. Where they don't, nothing has changed.
pub fn refute_near(e: &mut Engine<'_>, pairs: &[Pair]) -> Result<Option<Reason>, AllocError> {
    if pairs.len() < LEAST_PAIRS {
        return Ok(None);
    }
    let Some((at, clause)) = claim_of(e) else {
        return Ok(None);
    };
    let Some(sides) = open_sides(e, clause)? else {
        return Ok(None);
    };
    let Some(s) = solved_near(e, pairs, &sides)? else {
        return Ok(None);
    };
    if !are_refuted(e, &s, &sides)? {
        return Ok(None);
    }
    e.solved = s;
    close(e, at, clause)
}
