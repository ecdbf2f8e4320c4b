//! What the alternatives of a clause have in common: literals, and bounds of the terms that meet.

use crate::way::Way;
use bg_rows::Entry;
use bg_simplex::{Lit, most};
use bg_solved::Equation;
use bg_trail::{Engine, column_of, form_of, literal, row_atom};
use std::alloc::{AllocError, Global};

/// How many terms that meet are asked for the bounds of their differences.
const MOST_TERMS: usize = 6;

/// How many columns are asked for their bounds.
const MOST_COLUMNS: usize = 48;

/// Counts each of these literals.
fn count_all(counts: &mut [usize], literals: &[Lit]) {
    for l in literals {
        if let Some(n) = counts.get_mut(*l as usize) {
            *n = n.saturating_add(1);
        }
    }
}

/// The literals that are true behind each alternative, in the order of the first one.
pub fn common_literals(e: &Engine<'_>, ways: &[Way]) -> Result<Vec<Lit>, AllocError> {
    let mut counts = vec![in e.alloc; 0; e.trail.atoms.len().saturating_mul(2)]?;
    for w in ways {
        count_all(&mut counts, &w.literals);
    }
    let mut made = Vec::new(e.alloc);
    if let Some(first) = ways.first() {
        for l in &first.literals {
            if let Some(n) = counts.get(*l as usize) {
                if *n == ways.len() {
                    made.push(*l)?;
                }
            }
        }
    }
    Ok(made)
}

/// The terms of equations, each once, rising.
pub fn terms_of(alloc: Global, equations: &[Equation]) -> Result<Vec<u32>, AllocError> {
    let mut made = Vec::new(alloc);
    for q in equations {
        for t in &q.entries {
            made.push(t.variable)?;
        }
    }
    made.sort()?;
    made.dedup();
    Ok(made)
}

/// Those terms that are among others, too.
fn both(alloc: Global, terms: &[u32], others: &[u32]) -> Result<Vec<u32>, AllocError> {
    let mut made = Vec::new(alloc);
    for x in terms {
        if others.contains(x) {
            made.push(*x)?;
        }
    }
    Ok(made)
}

/// The last terms that each alternative fixes by equalities: those that meet behind the clause.
fn meeting_terms(alloc: Global, ways: &[Way]) -> Result<Vec<u32>, AllocError> {
    let Some((first, rest)) = ways.split_first() else {
        return Ok(Vec::new(alloc));
    };
    let mut terms = terms_of(alloc, &first.fixed)?;
    for w in rest {
        let others = terms_of(alloc, &w.fixed)?;
        terms = both(alloc, &terms, &others)?;
    }
    let from = terms.len().saturating_sub(MOST_TERMS);
    let last = terms.get(from..).unwrap_or(&[]);
    last.to_vec(alloc)
}

/// Whether a term of a sum is among these.
pub fn touches(form: &[Entry], terms: &[u32]) -> bool {
    for t in form {
        if terms.contains(&t.variable) {
            return true;
        }
    }
    false
}

/// Puts the columns of a way that hold a term of these behind others.
fn push_touched(
    e: &Engine<'_>,
    made: &mut Vec<u32>,
    columns: &[u32],
    terms: &[u32],
) -> Result<(), AllocError> {
    for c in columns {
        if touches(form_of(&e.columns, *c), terms) {
            made.push(*c)?;
        }
    }
    Ok(())
}

/// Puts the columns of a term and of its differences from later ones behind others.
fn push_differences(
    e: &mut Engine<'_>,
    made: &mut Vec<u32>,
    x: u32,
    later: &[u32],
) -> Result<(), AllocError> {
    let form = [Entry { variable: x, by: 1 }];
    made.push(column_of(e.alloc, &mut e.columns, &mut e.simplex, &form, false)?)?;
    for y in later {
        let form = [
            Entry { variable: x, by: 1 },
            Entry {
                variable: *y,
                by: -1,
            },
        ];
        made.push(column_of(e.alloc, &mut e.columns, &mut e.simplex, &form, false)?)?;
    }
    Ok(())
}

/// The columns whose bounds the alternatives are asked for: those that they bound and that hold a term which meets, those of these
/// terms, and those of their differences.
pub fn template(e: &mut Engine<'_>, ways: &[Way]) -> Result<Vec<u32>, AllocError> {
    let terms = meeting_terms(e.alloc, ways)?;
    let mut made = Vec::new(e.alloc);
    for w in ways {
        push_touched(e, &mut made, &w.columns, &terms)?;
    }
    for i in 0..terms.len() {
        if let Some(x) = terms.get(i) {
            let later = terms.get(i.saturating_add(1)..).unwrap_or(&[]);
            push_differences(e, &mut made, *x, later)?;
        }
    }
    made.sort()?;
    made.dedup();
    made.truncate(MOST_COLUMNS);
    Ok(made)
}

/// The greatest and the least value of each of these columns, in turn.
pub fn extremes(e: &mut Engine<'_>, columns: &[u32]) -> Result<Vec<Option<i128>>, AllocError> {
    let mut made = Vec::new(e.alloc);
    for c in columns {
        made.push(most(e.alloc, &mut e.simplex, *c, true)?)?;
        made.push(most(e.alloc, &mut e.simplex, *c, false)?)?;
    }
    Ok(made)
}

/// The weaker of two bounds, if there are two.
fn weaker(a: Option<i128>, b: Option<i128>, up: bool) -> Option<i128> {
    let a = a?;
    let b = b?;
    Some(if up { a.max(b) } else { a.min(b) })
}

/// The weakest bound of this number that the alternatives have.
fn weakest(ways: &[Way], i: usize, up: bool) -> Option<i128> {
    let (first, rest) = ways.split_first()?;
    let mut k = *first.most.get(i)?;
    for w in rest {
        k = weaker(k, *w.most.get(i)?, up);
    }
    k
}

/// Whether a bound is nearer than the one that holds already.
fn is_nearer(k: i128, here: Option<i128>, up: bool) -> bool {
    match here {
        Some(h) => if up { k < h } else { k > h },
        None => true,
    }
}

/// The literal that a column is at most a number, or at least.
fn bound_literal(
    e: &mut Engine<'_>,
    column: u32,
    up: bool,
    k: i128,
) -> Result<Option<Lit>, AllocError> {
    let Some(bound) = (if up { Some(k) } else { k.checked_sub(1) }) else {
        return Ok(None);
    };
    let entries = form_of(&e.columns, column).to_vec(e.alloc)?;
    match row_atom(e, entries, bound)? {
        Some(a) => Ok(Some(literal(a, up))),
        None => Ok(None),
    }
}

/// The literals of the bounds that the alternatives have in common and that are nearer than those that hold already.
pub fn common_bounds(
    e: &mut Engine<'_>,
    ways: &[Way],
    columns: &[u32],
) -> Result<Vec<Lit>, AllocError> {
    let here = extremes(e, columns)?;
    let mut made = Vec::new(e.alloc);
    for i in 0..here.len() {
        let up = i & 1 == 0;
        if let (Some(h), Some(c), Some(k)) = (
            here.get(i),
            columns.get(i >> 1),
            weakest(ways, i, up),
        ) {
            if is_nearer(k, *h, up) {
                if let Some(l) = bound_literal(e, *c, up, k)? {
                    made.push(l)?;
                }
            }
        }
    }
    Ok(made)
}
