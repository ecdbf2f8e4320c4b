//! The equalities that hold at the root: two rows that are true there and opposite.

use bg_formula::{Atom, Clauses};
use bg_rows::{Row, key};
use bg_simplex::Lit;
use bg_solved::{Solved, are_opposite, learn_equality, made_row};
use bg_trail::{Engine, at_place, atom_of, is_positive, opposite};
use std::alloc::{AllocError, Global};
use std::collections::BTreeMap;

/// Two literals that are true at the root, and whose rows are opposite.
#[derive(Clone, Copy)]
pub struct Pair {
    pub first: Lit,
    pub second: Lit,
}

/// The literals whose rows are true, by entries and bound; and the pairs of them so far.
#[derive(Drop)]
struct Sides {
    by_row: BTreeMap<(Vec<(u32, i128)>, i128), Lit>,
    pairs: Vec<Pair>,
}

/// The row of a literal of the formula, if it has one.
pub fn row_of(f: &Clauses, l: Lit) -> Option<&Row> {
    match f.atoms.get(atom_of(l)) {
        Some(Atom::Holds(both)) => Some(if is_positive(l) {
            &both.row
        } else {
            &both.denial
        }),
        _ => None,
    }
}

/// The opposite row: the same entries and bound, negated; None where a number leaves 128 bits.
fn opposite_row(alloc: Global, row: &Row) -> Result<Option<Row>, AllocError> {
    let Some(bound) = row.bound.checked_neg() else {
        return Ok(None);
    };
    match opposite(alloc, &row.entries)? {
        Some(entries) => Ok(made_row(entries, bound)),
        None => Ok(None),
    }
}

/// The literal whose row is the opposite one, if such a row is among these.
fn other_side(alloc: Global, sides: &Sides, row: &Row) -> Result<Option<Lit>, AllocError> {
    let Some(other) = opposite_row(alloc, row)? else {
        return Ok(None);
    };
    let k = key(alloc, &other)?;
    Ok(sides.by_row.get(&k).copied())
}

/// Takes in the row of a literal, and notes the pair that it makes with its opposite, if that is there.
fn take(e: &Engine<'_>, sides: &mut Sides, l: Lit) -> Result<(), AllocError> {
    let Some(row) = row_of(e.formula, l) else {
        return Ok(());
    };
    sides.by_row.insert(key(e.alloc, row)?, l)?;
    if let Some(other) = other_side(e.alloc, sides, row)? {
        sides.pairs.push(Pair {
            first: l,
            second: other,
        })?;
    }
    Ok(())
}

/// Whether the rows of two literals are opposite.
fn are_sides(f: &Clauses, l: Lit, other: Lit) -> bool {
    match (row_of(f, l), row_of(f, other)) {
        (Some(row), Some(opposite)) => are_opposite(row, opposite),
        _ => false,
    }
}

/// Takes in a literal behind the one that waits. The two sides of an equality mostly stand side by side on the trail, and are found
/// without a key. Answers the literal that waits then.
fn take_next(
    e: &Engine<'_>,
    sides: &mut Sides,
    waits: Option<Lit>,
    l: Lit,
) -> Result<Option<Lit>, AllocError> {
    let Some(other) = waits else {
        return Ok(Some(l));
    };
    if are_sides(e.formula, l, other) {
        sides.pairs.push(Pair {
            first: l,
            second: other,
        })?;
        return Ok(None);
    }
    take(e, sides, other)?;
    Ok(Some(l))
}

/// The equalities whose two rows are true at the root. Clauses stand from the last block of the program back, so the literals are taken
/// from the last on: a variable is then solved for those from which it is made.
pub fn root_pairs(e: &Engine<'_>) -> Result<Vec<Pair>, AllocError> {
    let mut sides = Sides {
        by_row: BTreeMap::new(e.alloc),
        pairs: Vec::new(e.alloc),
    };
    let mut waits = None;
    for place in (0..e.trail.len).rev() {
        if let Some(l) = at_place(&e.trail, place) {
            if row_of(e.formula, l).is_some() {
                waits = take_next(e, &mut sides, waits, l)?;
            }
        }
    }
    if let Some(l) = waits {
        take(e, &mut sides, l)?;
    }
    Ok(sides.pairs)
}

/// Solves the equality of a pair: whether its rows say nothing over the terms that stay.
pub fn solve_pair(
    alloc: Global,
    f: &Clauses,
    s: &mut Solved,
    pair: Pair,
) -> Result<bool, AllocError> {
    match (row_of(f, pair.first), row_of(f, pair.second)) {
        (Some(row), Some(opposite)) => {
            learn_equality(alloc, s, pair.first, row, pair.second, opposite)
        }
        _ => Ok(false),
    }
}

/// Solves equalities, in their order. Answers the literals whose rows say nothing over the terms that stay: the sides of an equality that
/// is solved, or that follows from those that are.
pub fn solve_pairs(e: &mut Engine<'_>, pairs: &[Pair]) -> Result<Vec<Lit>, AllocError> {
    let mut settled = Vec::new(e.alloc);
    for pair in pairs {
        if solve_pair(e.alloc, e.formula, &mut e.solved, *pair)? {
            settled.push(pair.first)?;
            settled.push(pair.second)?;
        }
    }
    Ok(settled)
}
