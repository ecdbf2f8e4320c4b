//! The search: propagate, learn from what is false, decide.

use crate::leaf::{Leaf, settle};
use crate::start::start;
use bg_meet::{Flow, meet};
use bg_trail::{
    Engine, Reason, decide, go_back, has_room, is_spent, learn, next_literal, propagate, top_level,
};
use std::alloc::AllocError;

/// How many turns the search takes at the most, for each lemma of its budget.
const TURNS_PER_LEMMA: usize = 64;

/// How many lemmas come before the dilemma rule has its turn: what is easy is done by then.
const LEMMAS_BEFORE: usize = 100;

/// How a search ends.
#[derive(Drop)]
pub enum End {
    /// What the reason needs is true at the root, and can't be.
    Closed(Reason),
    /// Values with which all clauses hold.
    Found(Vec<bool>),
    /// It isn't known.
    Unknown,
}

/// The dilemma rule, once, at the root.
fn meet_once(e: &mut Engine<'_>) -> Result<Option<End>, AllocError> {
    e.counts.has_met = true;
    go_back(e, 0);
    match meet(e)? {
        Flow::Closed(conflict) => Ok(Some(End::Closed(conflict))),
        Flow::Spent => Ok(Some(End::Unknown)),
        Flow::Go | Flow::Lost => Ok(None),
    }
}

/// Goes on where nothing is false: a decision, or the end.
fn go_on(e: &mut Engine<'_>) -> Result<Option<End>, AllocError> {
    if !e.counts.has_met && e.lemmas.all.len() >= LEMMAS_BEFORE {
        return meet_once(e);
    }
    if is_spent(e) {
        return Ok(Some(End::Unknown));
    }
    if let Some(l) = next_literal(e) {
        decide(e, l);
        return Ok(None);
    }
    match settle(e)? {
        Leaf::Values(values) => Ok(Some(End::Found(values))),
        Leaf::GoesOn => Ok(None),
        Leaf::Unknown => Ok(Some(End::Unknown)),
    }
}

/// Learns from what is false, if it isn't so at the root and one lemma more may count.
fn resolve(e: &mut Engine<'_>, conflict: Reason) -> Result<Option<End>, AllocError> {
    let top = top_level(&e.trail, &e.base, &e.reasons.parts, conflict);
    if top == 0 {
        return Ok(Some(End::Closed(conflict)));
    }
    if !has_room(e) {
        return Ok(Some(End::Unknown));
    }
    learn(e, conflict, top)?;
    Ok(None)
}

/// One turn of the search.
fn turn(e: &mut Engine<'_>) -> Result<Option<End>, AllocError> {
    match propagate(e)? {
        Some(conflict) => resolve(e, conflict),
        None => go_on(e),
    }
}

/// Searches until it is known, or the budget is used up.
pub fn search(e: &mut Engine<'_>, set: &[bool], targets: &[i128]) -> Result<End, AllocError> {
    if let Some(conflict) = start(e, set, targets)? {
        return Ok(End::Closed(conflict));
    }
    for _ in 0..e.limits.nodes.saturating_mul(TURNS_PER_LEMMA) {
        if let Some(end) = turn(e)? {
            return Ok(end);
        }
    }
    Ok(End::Unknown)
}
