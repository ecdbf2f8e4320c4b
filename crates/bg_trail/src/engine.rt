//! The state of a search.

use crate::base::{Base, grow_base, new_base};
use crate::columns::{Columns, count_open, grow_columns, new_columns};
use crate::lemmas::{Lemmas, new_lemmas};
use crate::literals::atom_of;
use crate::order::{Front, new_front};
use crate::reason::{Reason, Reasons, new_reasons};
use crate::table::{Table, new_table};
use crate::trail::{Start, Trail, grow_trail, new_trail, pop, put, rise};
use bg_formula::Clauses;
use bg_simplex::{Lit, Simplex, Told, mark, new_simplex, take_back};
use bg_solved::{Solved, new_solved};
use std::alloc::{AllocError, Global};

/// What a conflict's analysis has seen: which atoms, how many of them got their value at the conflict's level and are still to be
/// resolved, and how many at lower levels. And the bounds that the simplex told last.
#[derive(Drop)]
pub struct Desk {
    pub seen: Vec<bool>,
    pub open: usize,
    pub lower: usize,
    pub told: Vec<Told>,
}

/// How much may be done: nodes that count, of which a lemma takes two and an open decision one; and rows that are tightened.
#[derive(Clone, Copy)]
pub struct Limits {
    pub nodes: usize,
    pub rows: usize,
}

/// How much was done, of what is limited: conflicts; clauses that the dilemma rule looked at; decisions that a term without a whole
/// value is at most a number; and rows that were tightened. And whether the dilemma rule had its turn.
#[derive(Clone, Copy)]
pub struct Counts {
    pub conflicts: usize,
    pub looks: usize,
    pub branches: usize,
    pub tightened: usize,
    pub has_met: bool,
}

/// A search: the formula, and how many atoms there may be with those of rows of the certificate's own; the values on its path, where the next clause to decide is searched, the clauses known, and why each value came; what rows say, by columns; what was
/// learned; and how much was done, and may be.
#[derive(Drop)]
pub struct Engine<'a> {
    pub alloc: Global,
    pub formula: &'a Clauses,
    pub room: usize,
    pub trail: Trail,
    pub front: Front,
    pub base: Base,
    pub reasons: Reasons,
    pub columns: Columns,
    pub simplex: Simplex,
    pub solved: Solved,
    pub lemmas: Lemmas,
    pub table: Table,
    pub desk: Desk,
    pub counts: Counts,
    pub limits: Limits,
}

/// How many rows of its own a certificate may have: four for each clause, and no more than this.
const MOST_ROWS: usize = 4096;

/// How many atoms there is room for: those of the formula, and those of rows of the certificate's own.
fn room(f: &Clauses) -> usize {
    let rows = f.clauses.len().saturating_mul(4).min(MOST_ROWS);
    f.atoms.len().saturating_add(rows)
}

/// Nothing seen, with room for so many atoms.
fn new_desk(alloc: Global, atoms: usize) -> Result<Desk, AllocError> {
    Ok(Desk {
        seen: vec![in alloc; false; atoms]?,
        open: 0,
        lower: 0,
        told: Vec::new(alloc),
    })
}

/// A search before its start. Time and memory are bounded by the formula and by the limits. Rows of the certificate's own get their
/// place as they come (`grow`).
pub fn new_engine(alloc: Global, f: &Clauses, limits: Limits) -> Result<Engine<'_>, AllocError> {
    let atoms = f.atoms.len();
    Ok(Engine {
        alloc,
        formula: f,
        room: room(f),
        trail: new_trail(alloc, atoms)?,
        front: new_front(alloc, f)?,
        base: new_base(alloc, atoms)?,
        reasons: new_reasons(alloc, atoms)?,
        columns: new_columns(alloc, f.terms, atoms)?,
        simplex: new_simplex(alloc),
        solved: new_solved(alloc, f.terms)?,
        lemmas: new_lemmas(alloc),
        table: new_table(alloc),
        desk: new_desk(alloc, atoms)?,
        counts: Counts {
            conflicts: 0,
            looks: 0,
            branches: 0,
            tightened: 0,
            has_met: false,
        },
        limits,
    })
}

/// Makes a place for one atom more.
pub fn grow(e: &mut Engine<'_>) -> Result<(), AllocError> {
    grow_trail(&mut e.trail)?;
    grow_base(&mut e.base)?;
    grow_columns(&mut e.columns)?;
    e.reasons.of.push(Reason::Decision)?;
    e.desk.seen.push(false)?;
    Ok(())
}

/// Makes an undecided literal true.
pub fn assign(e: &mut Engine<'_>, l: Lit, why: Reason) {
    put(&mut e.trail, l);
    count_open(&mut e.columns, l, false);
    if let Some(r) = e.reasons.of.get_mut(atom_of(l)) {
        *r = why;
    }
}

/// Begins a level with an undecided literal.
pub fn decide(e: &mut Engine<'_>, l: Lit) {
    let start = Start {
        place: e.trail.len,
        mark: mark(&e.simplex),
        parts: e.reasons.parts.len(),
        searched: e.front.searched,
    };
    rise(&mut e.trail, start);
    assign(e, l, Reason::Decision);
}

/// Takes back all levels above this one.
pub fn go_back(e: &mut Engine<'_>, level: usize) {
    if e.trail.level <= level {
        return;
    }
    let Some(start) = e.trail.starts.get(level) else {
        return;
    };
    let start = *start;
    for _ in start.place..e.trail.len {
        if let Some(l) = pop(&mut e.trail) {
            count_open(&mut e.columns, l, true);
        }
    }
    e.trail.level = level;
    e.trail.head = start.place;
    e.trail.rows = e.trail.rows.min(start.place);
    e.front.searched = start.searched;
    e.reasons.parts.truncate(start.parts);
    take_back(&mut e.simplex, start.mark);
}

/// Whether as many nodes count as may.
pub fn is_spent(e: &Engine<'_>) -> bool {
    let lemmas = e.lemmas.all.len().saturating_mul(2);
    lemmas.saturating_add(e.trail.level) >= e.limits.nodes
}

/// Whether one lemma more may count.
pub fn has_room(e: &Engine<'_>) -> bool {
    let lemmas = e.lemmas.all.len().saturating_add(1);
    lemmas.saturating_mul(2) <= e.limits.nodes
}
