//! The clauses that are known, with two watched literals each (Moskewicz, Madigan, Zhao, Zhang and Malik, Chaff: engineering an
//! efficient SAT solver, 2001). The lists of those that watch a literal are chained through the clauses, so that a watch moves without
//! taking memory.

use crate::span::{Span, items, span_of};
use bg_simplex::Lit;
use std::alloc::{AllocError, Global};

/// The literals of all clauses, and where those of each stand: first those of the formula, then the lemmas. Watch 2 c is of the first
/// literal of clause c, watch 2 c + 1 of the second. For each literal the first watch of it, and behind each watch the next one.
#[derive(Drop)]
pub struct Base {
    pub literals: Vec<Lit>,
    pub spans: Vec<Span>,
    pub first: Vec<Option<u32>>,
    pub next: Vec<Option<u32>>,
}

/// No clauses, with room for so many atoms.
pub fn new_base(alloc: Global, atoms: usize) -> Result<Base, AllocError> {
    Ok(Base {
        literals: Vec::new(alloc),
        spans: Vec::new(alloc),
        first: vec![in alloc; None; atoms.saturating_mul(2)]?,
        next: Vec::new(alloc),
    })
}

/// Makes room for the watches of one atom more.
pub fn grow_base(base: &mut Base) -> Result<(), AllocError> {
    base.first.push(None)?;
    base.first.push(None)?;
    Ok(())
}

/// The literals of a clause.
pub fn clause_at(base: &Base, c: u32) -> &[Lit] {
    match base.spans.get(c as usize) {
        Some(span) => items(&base.literals, *span),
        None => &[],
    }
}

/// Puts a watch in front of those of a literal.
pub fn link(base: &mut Base, watch: u32, l: Lit) {
    let Some(first) = base.first.get_mut(l as usize) else {
        return;
    };
    let old = *first;
    *first = Some(watch);
    if let Some(next) = base.next.get_mut(watch as usize) {
        *next = old;
    }
}

/// Takes a watch out of those of a literal: it stands behind `before`, or is the first one, and `after` comes behind it.
pub fn unlink(base: &mut Base, l: Lit, before: Option<u32>, after: Option<u32>) {
    match before {
        Some(b) => {
            if let Some(next) = base.next.get_mut(b as usize) {
                *next = after;
            }
        }
        None => {
            if let Some(first) = base.first.get_mut(l as usize) {
                *first = after;
            }
        }
    }
}

/// Watches the first two literals of a clause.
fn watch_both(base: &mut Base, c: u32, literals: &[Lit]) {
    if let [a, b, ..] = literals {
        let watch = c << 1;
        link(base, watch, *a);
        link(base, watch | 1, *b);
    }
}

/// Adds a clause, and answers its number. Its first two literals are watched.
pub fn add_clause(base: &mut Base, literals: &[Lit]) -> Result<u32, AllocError> {
    let c = base.spans.len();
    let from = base.literals.len();
    base.literals.extend_from_slice(literals)?;
    base.spans.push(span_of(from, literals.len()))?;
    base.next.push(None)?;
    base.next.push(None)?;
    let c = u32::try_from(c).unwrap_or(u32::MAX);
    watch_both(base, c, literals);
    Ok(c)
}
