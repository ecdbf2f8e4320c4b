//! Which of what was learned the end of a search needs: a pass from the back.

use crate::groups::{Groups, close_groups, new_groups, note_uses};
use bg_simplex::Lit;
use bg_solved::{Deriver, add_multiple, clear, reduced_row};
use bg_trail::{
    Engine, Link, Reason, begin_of, clause_at, end_of, is_positive, items, negated, part_at,
    place_of, reduced_of, unpack,
};
use std::alloc::AllocError;

/// Of the literals that are true at the root, by their places, whether they are needed; of each lemma how many needed reasons name it;
/// and which of the needed reasons use the same rows.
#[derive(Drop)]
pub struct Needs {
    pub facts: Vec<bool>,
    pub lemmas: Vec<u32>,
    pub groups: Groups,
}

/// A reason, with its number among all, and where it stands: before it so many literals were true at the root.
#[derive(Clone, Copy)]
struct Site {
    reason: Reason,
    number: usize,
    before: usize,
}

/// The number of a link's reason: they stand behind those of the literals of the root.
pub fn link_number(facts: &[Link], at: usize) -> usize {
    facts.len().saturating_add(at)
}

/// The number of the reason that ends a lemma's proof; behind those of all lemmas stands that of the end of the search.
pub fn end_number(e: &Engine<'_>, facts: &[Link], k: usize) -> usize {
    link_number(facts, e.lemmas.chain.len()).saturating_add(k)
}

/// Adds so many times the row of a literal, as it is given, to a sum, if there is one yet. Answers the number of the sum.
fn add_part(
    e: &Engine<'_>,
    d: &mut Deriver,
    sum: Option<u128>,
    lit: Lit,
    times: i128,
) -> Result<Option<u128>, AllocError> {
    match reduced_of(e, lit) {
        Some(r) => {
            let number = reduced_row(d, &e.solved, lit, r, !is_positive(lit))?;
            Ok(Some(add_multiple(d, sum, number, times)?))
        }
        None => Ok(sum),
    }
}

/// Derives the false row of a reason that adds rows up, from the rows of literals as they are given.
pub fn derive(e: &Engine<'_>, d: &mut Deriver, r: Reason) -> Result<(), AllocError> {
    clear(d);
    let mut sum = None;
    match r {
        Reason::Both(a, b) => {
            sum = add_part(e, d, sum, a, 1)?;
            sum = add_part(e, d, sum, b, 1)?;
        }
        Reason::Rows(span) => {
            for at in begin_of(span)..end_of(span) {
                if let Some(part) = part_at(&e.lemmas.parts, at) {
                    sum = add_part(e, d, sum, part.lit, part.times)?;
                }
            }
        }
        Reason::Clause(_) | Reason::Decision | Reason::Unit(_, _) => {}
    }
    Ok(())
}

/// Marks a literal that is true at the root, if it came before this place.
fn need(e: &Engine<'_>, n: &mut Needs, l: Lit, before: usize) {
    let place = place_of(&e.trail, l);
    if place < before {
        if let Some(fact) = n.facts.get_mut(place) {
            *fact = true;
        }
    }
}

/// Notes that a reason names the lemma of a clause.
fn need_lemma(e: &Engine<'_>, n: &mut Needs, c: u32) {
    let Some(k) = (c as usize).checked_sub(e.formula.clauses.len()) else {
        return;
    };
    if let Some(count) = n.lemmas.get_mut(k) {
        *count = count.saturating_add(1);
    }
}

/// How many needed reasons name a lemma.
pub fn times_named(n: &Needs, k: usize) -> u32 {
    match n.lemmas.get(k) {
        Some(count) => *count,
        None => 0,
    }
}

/// Marks what a reason needs of what was true before it.
fn need_reason(
    e: &Engine<'_>,
    d: &mut Deriver,
    n: &mut Needs,
    site: Site,
) -> Result<(), AllocError> {
    match site.reason {
        Reason::Clause(c) => {
            need_lemma(e, n, c);
            for l in clause_at(&e.base, c) {
                need(e, n, negated(*l), site.before);
            }
        }
        Reason::Both(_, _) | Reason::Rows(_) => {
            derive(e, d, site.reason)?;
            note_uses(&mut n.groups, site.number, &d.uses)?;
            for l in &d.uses {
                need(e, n, *l, site.before);
            }
        }
        Reason::Unit(_, l) => need(e, n, negated(l), site.before),
        Reason::Decision => {}
    }
    Ok(())
}

/// Marks what the facts from a place on need, the last first, up to another place.
fn need_facts(
    e: &Engine<'_>,
    d: &mut Deriver,
    n: &mut Needs,
    facts: &[Link],
    from: usize,
    to: usize,
) -> Result<(), AllocError> {
    for place in (from..to).rev() {
        if let (Some(fact), Some(true)) = (facts.get(place), n.facts.get(place)) {
            let site = Site {
                reason: fact.reason,
                number: place,
                before: place,
            };
            need_reason(e, d, n, site)?;
        }
    }
    Ok(())
}

/// Marks what a lemma's proof needs, if the lemma is needed.
fn need_proof(
    e: &Engine<'_>,
    d: &mut Deriver,
    n: &mut Needs,
    facts: &[Link],
    k: usize,
) -> Result<(), AllocError> {
    let Some(lemma) = e.lemmas.all.get(k) else {
        return Ok(());
    };
    if times_named(n, k) == 0 {
        return Ok(());
    }
    let mut number = link_number(facts, begin_of(lemma.chain));
    for link in items(&e.lemmas.chain, lemma.chain) {
        let site = Site {
            reason: unpack(*link).reason,
            number,
            before: lemma.facts,
        };
        need_reason(e, d, n, site)?;
        number = number.saturating_add(1);
    }
    let site = Site {
        reason: lemma.end,
        number: end_number(e, facts, k),
        before: lemma.facts,
    };
    need_reason(e, d, n, site)
}

/// Nothing needed yet.
fn no_needs(e: &Engine<'_>, facts: &[Link]) -> Result<Needs, AllocError> {
    let lemmas = e.lemmas.all.len();
    let reasons = end_number(e, facts, lemmas).saturating_add(1);
    Ok(Needs {
        facts: vec![in e.alloc; false; facts.len()]?,
        lemmas: vec![in e.alloc; 0; lemmas]?,
        groups: new_groups(e.alloc, reasons)?,
    })
}

/// What the end needs, and what that needs.
pub fn needs_of(
    e: &Engine<'_>,
    d: &mut Deriver,
    facts: &[Link],
    end: Reason,
) -> Result<Needs, AllocError> {
    let mut n = no_needs(e, facts)?;
    let site = Site {
        reason: end,
        number: end_number(e, facts, e.lemmas.all.len()),
        before: facts.len(),
    };
    need_reason(e, d, &mut n, site)?;
    let mut to = facts.len();
    for k in (0..e.lemmas.all.len()).rev() {
        if let Some(lemma) = e.lemmas.all.get(k) {
            let from = lemma.facts;
            need_facts(e, d, &mut n, facts, from, to)?;
            to = from;
            need_proof(e, d, &mut n, facts, k)?;
        }
    }
    need_facts(e, d, &mut n, facts, 0, to)?;
    close_groups(e.alloc, &mut n.groups);
    Ok(n)
}
