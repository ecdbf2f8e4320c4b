//! Unit propagation: where all literals of a clause but one are false, that one is true. Only the clauses that watch a literal are
//! looked at when it becomes false, and each then watches another one if it can.

use crate::base::{Base, link, unlink};
use crate::engine::{Engine, assign};
use crate::literals::negated;
use crate::reason::Reason;
use crate::span::{Span, begin_of, end_of};
use crate::trail::{Trail, at_place, is_false, is_true};
use bg_simplex::Lit;

/// What becomes of a watch whose literal is false.
#[derive(Clone, Copy)]
enum Watched {
    /// It stays: the clause is true by its other watch.
    Stays,
    /// It moves to this literal.
    Moves(Lit),
    /// It stays, and the other watch is all that is left.
    Implies(Lit),
    /// The clause is false.
    False,
}

/// Puts the literals at two places each at the other's.
fn exchange(literals: &mut [Lit], i: usize, j: usize) {
    if i < literals.len() && j < literals.len() {
        literals.swap(i, j);
    }
}

/// A place of the clause, behind those of its watches, whose literal isn't false.
fn another(base: &Base, trail: &Trail, span: Span) -> Option<usize> {
    for j in begin_of(span).saturating_add(2)..end_of(span) {
        if let Some(l) = base.literals.get(j) {
            if !is_false(trail, *l) {
                return Some(j);
            }
        }
    }
    None
}

/// What becomes of a watch whose literal is false. The literal to which it moves takes the place of that one.
fn look(base: &mut Base, trail: &Trail, watch: u32) -> Watched {
    let Some(span) = base.spans.get((watch >> 1) as usize) else {
        return Watched::Stays;
    };
    let span = *span;
    let first = begin_of(span);
    let second = first.saturating_add(1);
    let (mine, other) = if watch & 1 == 0 {
        (first, second)
    } else {
        (second, first)
    };
    let Some(rest) = base.literals.get(other).copied() else {
        return Watched::Stays;
    };
    if is_true(trail, rest) {
        return Watched::Stays;
    }
    if let Some(j) = another(base, trail, span) {
        exchange(&mut base.literals, mine, j);
        return match base.literals.get(mine) {
            Some(l) => Watched::Moves(*l),
            None => Watched::Stays,
        };
    }
    if is_false(trail, rest) {
        Watched::False
    } else {
        Watched::Implies(rest)
    }
}

/// Looks at the clauses that watch a literal, which became false. Answers one that is false.
fn visit(e: &mut Engine<'_>, l: Lit) -> Option<u32> {
    let mut before = None;
    let mut at = e.base.first.get(l as usize).copied().flatten();
    for _ in 0..e.base.next.len() {
        let watch = at?;
        at = e.base.next.get(watch as usize).copied().flatten();
        match look(&mut e.base, &e.trail, watch) {
            Watched::Stays => before = Some(watch),
            Watched::Moves(m) => {
                unlink(&mut e.base, l, before, at);
                link(&mut e.base, watch, m);
            }
            Watched::Implies(m) => {
                before = Some(watch);
                assign(e, m, Reason::Clause(watch >> 1));
            }
            Watched::False => return Some(watch >> 1),
        }
    }
    None
}

/// Makes true what follows by the clauses. Answers a clause that is false.
pub fn units(e: &mut Engine<'_>) -> Option<u32> {
    for _ in 0..e.trail.order.len() {
        let l = at_place(&e.trail, e.trail.head)?;
        e.trail.head = e.trail.head.saturating_add(1);
        let found = visit(e, negated(l));
        if found.is_some() {
            return found;
        }
    }
    None
}
