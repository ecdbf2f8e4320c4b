//! Why a literal is true, or why nothing can be: the literals that have to be true for it.

use crate::base::{Base, clause_at};
use crate::literals::{atom_of, negated};
use crate::span::{Span, count_of, items};
use crate::trail::{Trail, level_of};
use bg_simplex::{Lit, Multiple};
use std::alloc::{AllocError, Global};

/// A reason for a literal, or for a conflict.
#[derive(Clone, Copy)]
pub enum Reason {
    /// It was decided.
    Decision,
    /// The other literals of this clause are false.
    Clause(u32),
    /// The candidate of this number, a member of the set, asks for this literal.
    Unit(u32, Lit),
    /// The rows of these two literals add up to a false row; the denial of what they imply is one of them.
    Both(Lit, Lit),
    /// The rows of these literals, each so many times, add up to a false row; the denial of what they imply is one of them.
    Rows(Span),
}

/// Why each atom has its value, and one flat list of the rows that reasons add up. A level's part of it is cut off with the level.
#[derive(Drop)]
pub struct Reasons {
    pub of: Vec<Reason>,
    pub parts: Vec<Multiple>,
}

/// No reasons, with room for so many atoms.
pub fn new_reasons(alloc: Global, atoms: usize) -> Result<Reasons, AllocError> {
    Ok(Reasons {
        of: vec![in alloc; Reason::Decision; atoms]?,
        parts: Vec::new(alloc),
    })
}

/// Why a literal has its value.
pub fn reason_of(reasons: &Reasons, l: Lit) -> Reason {
    match reasons.of.get(atom_of(l)) {
        Some(r) => *r,
        None => Reason::Decision,
    }
}

/// How many literals a reason speaks of.
pub fn size_of(base: &Base, r: Reason) -> usize {
    match r {
        Reason::Clause(c) => clause_at(base, c).len(),
        Reason::Rows(span) => count_of(span),
        Reason::Both(_, _) => 2,
        Reason::Unit(_, _) => 1,
        Reason::Decision => 0,
    }
}

/// The literal of this number that a reason needs true. Of a reason for a literal, one of them is that literal's denial.
pub fn needed(base: &Base, parts: &[Multiple], r: Reason, i: usize) -> Option<Lit> {
    match r {
        Reason::Clause(c) => match clause_at(base, c).get(i) {
            Some(l) => Some(negated(*l)),
            None => None,
        },
        Reason::Rows(span) => match items(parts, span).get(i) {
            Some(part) => Some(part.lit),
            None => None,
        },
        Reason::Both(a, b) => Some(if i == 0 { a } else { b }),
        Reason::Unit(_, l) => Some(negated(l)),
        Reason::Decision => None,
    }
}

/// The highest level of the literals that a conflict needs.
pub fn top_level(trail: &Trail, base: &Base, parts: &[Multiple], r: Reason) -> usize {
    let mut top = 0;
    for i in 0..size_of(base, r) {
        if let Some(l) = needed(base, parts, r, i) {
            top = top.max(level_of(trail, l));
        }
    }
    top
}
