//! Which equalities are near some rows: those that share a term with them, or with one that is near.

use crate::pairs::{Pair, row_of};
use bg_formula::Clauses;
use bg_rows::Row;
use bg_simplex::Lit;
use bg_trail::Engine;
use std::alloc::{AllocError, Global};

/// How many equalities name a term at the most by which they are near: one that more of them name says little of each.
const MOST_USES: u32 = 4;

/// How many equalities may be near.
const MOST_NEAR: usize = 24;

/// How often terms stand in equalities: of each term how often, and the last place where it does, a number behind all places where there
/// is none. Of each place the equality, and the place of the same term before it.
#[derive(Drop)]
struct Uses {
    counts: Vec<u32>,
    last: Vec<usize>,
    places: Vec<Use>,
}

/// A place where a term stands.
#[derive(Clone, Copy)]
struct Use {
    pair: usize,
    before: usize,
}

/// What is near so far: of each equality whether it is, and how many are; of each term whether one names it, and which terms these are.
#[derive(Drop)]
struct Reach {
    taken: Vec<bool>,
    count: usize,
    met: Vec<bool>,
    terms: Vec<u32>,
}

/// Notes the terms of an equality.
fn note_pair(uses: &mut Uses, pair: usize, row: &Row) -> Result<(), AllocError> {
    for t in &row.entries {
        let x = t.variable as usize;
        if let (Some(count), Some(last)) = (uses.counts.get_mut(x), uses.last.get_mut(x)) {
            *count = count.saturating_add(1);
            let before = *last;
            *last = uses.places.len();
            uses.places.push(Use { pair, before })?;
        }
    }
    Ok(())
}

/// Where terms stand in equalities.
fn uses_of(e: &Engine<'_>, pairs: &[Pair]) -> Result<Uses, AllocError> {
    let terms = e.formula.terms as usize;
    let mut uses = Uses {
        counts: vec![in e.alloc; 0; terms]?,
        last: vec![in e.alloc; usize::MAX; terms]?,
        places: Vec::new(e.alloc),
    };
    for (at, pair) in pairs.iter().enumerate() {
        if let Some(row) = row_of(e.formula, pair.first) {
            note_pair(&mut uses, at, row)?;
        }
    }
    Ok(uses)
}

/// Whether more equalities name a term than by which they are near.
fn is_common(uses: &Uses, x: u32) -> bool {
    match uses.counts.get(x as usize) {
        Some(count) => *count > MOST_USES,
        None => true,
    }
}

/// Nothing is near, of so many equalities and terms.
fn no_reach(alloc: Global, pairs: usize, terms: u32) -> Result<Reach, AllocError> {
    Ok(Reach {
        taken: vec![in alloc; false; pairs]?,
        count: 0,
        met: vec![in alloc; false; terms as usize]?,
        terms: Vec::new(alloc),
    })
}

/// Notes the terms of a row that is near.
fn meet_row(n: &mut Reach, row: &Row) -> Result<(), AllocError> {
    for t in &row.entries {
        if let Some(is_met) = n.met.get_mut(t.variable as usize) {
            if !*is_met {
                *is_met = true;
                n.terms.push(t.variable)?;
            }
        }
    }
    Ok(())
}

/// Notes that an equality is near.
fn take(f: &Clauses, n: &mut Reach, pairs: &[Pair], at: usize) -> Result<(), AllocError> {
    let (Some(pair), Some(is_taken)) = (pairs.get(at), n.taken.get_mut(at)) else {
        return Ok(());
    };
    if !*is_taken {
        *is_taken = true;
        n.count = n.count.saturating_add(1);
        if let Some(row) = row_of(f, pair.first) {
            meet_row(n, row)?;
        }
    }
    Ok(())
}

/// Takes the equalities that name a term.
fn spread(
    f: &Clauses,
    n: &mut Reach,
    uses: &Uses,
    pairs: &[Pair],
    x: u32,
) -> Result<(), AllocError> {
    if is_common(uses, x) {
        return Ok(());
    }
    let mut place = match uses.last.get(x as usize) {
        Some(last) => *last,
        None => usize::MAX,
    };
    for _ in 0..MOST_USES {
        let Some(found) = uses.places.get(place) else {
            break;
        };
        place = found.before;
        take(f, n, pairs, found.pair)?;
    }
    Ok(())
}

/// Takes the equalities all whose terms are common.
fn take_common(f: &Clauses, n: &mut Reach, uses: &Uses, pairs: &[Pair]) -> Result<(), AllocError> {
    for (at, pair) in pairs.iter().enumerate() {
        if let Some(row) = row_of(f, pair.first) {
            if n.count <= MOST_NEAR && row.entries.iter().all(|t| is_common(uses, t.variable)) {
                take(f, n, pairs, at)?;
            }
        }
    }
    Ok(())
}

/// Which equalities are near these literals' rows; nothing where too many are.
pub fn near_pairs(
    e: &Engine<'_>,
    pairs: &[Pair],
    sides: &[Lit],
) -> Result<Option<Vec<bool>>, AllocError> {
    let f = e.formula;
    let uses = uses_of(e, pairs)?;
    let mut n = no_reach(e.alloc, pairs.len(), f.terms)?;
    for l in sides {
        if let Some(row) = row_of(f, *l) {
            meet_row(&mut n, row)?;
        }
    }
    take_common(f, &mut n, &uses, pairs)?;
    for at in 0..f.terms as usize {
        match n.terms.get(at) {
            Some(x) if n.count <= MOST_NEAR => {
                let x = *x;
                spread(f, &mut n, &uses, pairs, x)?;
            }
            _ => break,
        }
    }
    if n.count <= MOST_NEAR {
        Ok(Some(n.taken))
    } else {
        Ok(None)
    }
}
