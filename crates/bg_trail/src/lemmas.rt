//! What was learned, with its proofs: the events of which a certificate is written.

use crate::packed::{Packed, pack};
use crate::reason::Reason;
use crate::span::{Span, items, span_of};
use bg_simplex::{Lit, Multiple};
use std::alloc::{AllocError, Global};
use std::collections::BTreeMap;

/// A literal that follows, and why.
#[derive(Clone, Copy)]
pub struct Link {
    pub literal: Lit,
    pub reason: Reason,
}

/// A lemma: the number of its clause; how many literals were true at the root when it was learned; which literals follow, in their
/// order, where its literals are false; and what is false then.
#[derive(Clone, Copy)]
pub struct Lemma {
    pub clause: u32,
    pub facts: usize,
    pub chain: Span,
    pub end: Reason,
}

/// The rows that kept reasons add up: their literals; beside each how many times it is added, where 8 bits hold that; and the others by
/// their places, where 0 stands for them.
#[derive(Drop)]
pub struct Parts {
    lits: Vec<Lit>,
    times: Vec<i8>,
    far: BTreeMap<usize, i128>,
}

/// The literal of the row at a place, and how many times it is added.
pub fn part_at(parts: &Parts, at: usize) -> Option<Multiple> {
    let lit = *parts.lits.get(at)?;
    let near = *parts.times.get(at)?;
    let times = match parts.far.get(&at) {
        Some(far) if near == 0 => *far,
        _ => i128::from(near),
    };
    Some(Multiple { lit, times })
}

/// Keeps a multiple.
fn push_part(parts: &mut Parts, m: Multiple) -> Result<(), AllocError> {
    let at = parts.lits.len();
    parts.lits.push(m.lit)?;
    match i8::try_from(m.times) {
        Ok(times) => parts.times.push(times)?,
        Err(_) => {
            parts.far.insert(at, m.times)?;
            parts.times.push(0)?;
        }
    }
    Ok(())
}

/// The lemmas in their order, the literals that follow in their proofs, and the rows that the reasons of these add up.
#[derive(Drop)]
pub struct Lemmas {
    pub all: Vec<Lemma>,
    pub chain: Vec<Packed>,
    pub parts: Parts,
}

/// Nothing learned.
pub fn new_lemmas(alloc: Global) -> Lemmas {
    Lemmas {
        all: Vec::new(alloc),
        chain: Vec::new(alloc),
        parts: Parts {
            lits: Vec::new(alloc),
            times: Vec::new(alloc),
            far: BTreeMap::new(alloc),
        },
    }
}

/// A reason for as long as the search lasts: the rows that it adds up, some of `parts`, are copied.
pub fn keep(lemmas: &mut Lemmas, parts: &[Multiple], r: Reason) -> Result<Reason, AllocError> {
    match r {
        Reason::Rows(span) => {
            let from = lemmas.parts.lits.len();
            for m in items(parts, span) {
                push_part(&mut lemmas.parts, *m)?;
            }
            let len = lemmas.parts.lits.len().saturating_sub(from);
            Ok(Reason::Rows(span_of(from, len)))
        }
        other => Ok(other),
    }
}

/// Puts a literal, with its reason, behind the others that follow.
pub fn push_link(
    lemmas: &mut Lemmas,
    parts: &[Multiple],
    l: Lit,
    r: Reason,
) -> Result<(), AllocError> {
    let reason = keep(lemmas, parts, r)?;
    lemmas.chain.push(pack(Link { literal: l, reason }))?;
    Ok(())
}
