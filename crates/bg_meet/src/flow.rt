//! Trying things at a level: how a try ends, and the tries themselves.

use bg_simplex::Lit;
use bg_trail::{
    Engine, Reason, decide, go_back, has_room, is_open, is_spent, is_true, learn, negated,
    propagate, top_level,
};
use std::alloc::AllocError;

/// How many conflicts the proof of one claim may take.
const MOST_CONFLICTS: usize = 16;

/// How many decisions the proof of one claim may take.
const MOST_DECISIONS: u32 = 64;

/// How a try at a level ends.
#[derive(Clone, Copy)]
pub enum Flow {
    /// The level stands.
    Go,
    /// It is false at the root, by this conflict.
    Closed(Reason),
    /// A lemma took back the level.
    Lost,
    /// The budget is used up.
    Spent,
}

/// Propagates, and learns from what is false, until nothing is.
pub fn calm(e: &mut Engine<'_>, base: usize) -> Result<Flow, AllocError> {
    for _ in 0..e.trail.level.saturating_add(2) {
        let Some(conflict) = propagate(e)? else {
            return Ok(if e.trail.level < base {
                Flow::Lost
            } else {
                Flow::Go
            });
        };
        let top = top_level(&e.trail, &e.base, &e.reasons.parts, conflict);
        if top == 0 {
            return Ok(Flow::Closed(conflict));
        }
        if !has_room(e) {
            return Ok(Flow::Spent);
        }
        learn(e, conflict, top)?;
    }
    Ok(Flow::Spent)
}

/// Decides a literal, and propagates until nothing is false. The level above `base` stands behind it unless the literal is refuted.
pub fn enter(e: &mut Engine<'_>, l: Lit, base: usize) -> Result<Flow, AllocError> {
    if is_spent(e) {
        return Ok(Flow::Spent);
    }
    decide(e, l);
    calm(e, base)
}

/// Whether a literal of the clause is true.
pub fn has_true(e: &Engine<'_>, clause: &[Lit]) -> bool {
    for l in clause {
        if is_true(&e.trail, *l) {
            return true;
        }
    }
    false
}

/// The first undecided literal of the clause.
fn first_open(e: &Engine<'_>, clause: &[Lit]) -> Option<Lit> {
    for l in clause {
        if is_open(&e.trail, *l) {
            return Some(*l);
        }
    }
    None
}

/// Decides a literal, and then the alternatives of a clause one by one, as long as each of them is refuted.
fn refute_by(e: &mut Engine<'_>, p: Lit, clause: &[Lit], base: usize) -> Result<Flow, AllocError> {
    let limit = e.counts.conflicts.saturating_add(MOST_CONFLICTS);
    let mut flow = enter(e, p, base)?;
    for _ in 0..MOST_DECISIONS {
        if !matches!(flow, Flow::Go) {
            return Ok(flow);
        }
        if !is_true(&e.trail, p) || e.counts.conflicts > limit || has_true(e, clause) {
            return Ok(Flow::Go);
        }
        let Some(l) = first_open(e, clause) else {
            return Ok(Flow::Go);
        };
        flow = enter(e, l, base)?;
    }
    Ok(flow)
}

/// Makes a literal true at this level, if the alternatives of the clause prove it.
pub fn claim(e: &mut Engine<'_>, p: Lit, clause: &[Lit]) -> Result<Flow, AllocError> {
    if !is_open(&e.trail, p) {
        return Ok(Flow::Go);
    }
    let base = e.trail.level;
    match refute_by(e, negated(p), clause, base)? {
        Flow::Go => {
            go_back(e, base);
            calm(e, base)
        }
        other => Ok(other),
    }
}

/// Claims literals one by one.
pub fn claim_all(e: &mut Engine<'_>, wanted: &[Lit], clause: &[Lit]) -> Result<Flow, AllocError> {
    for p in wanted {
        match claim(e, *p, clause)? {
            Flow::Go => {}
            other => return Ok(other),
        }
    }
    Ok(Flow::Go)
}
