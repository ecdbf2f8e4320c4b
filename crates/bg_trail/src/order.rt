//! Which literal is decided next.

use crate::engine::Engine;
use crate::literals::{atom_of, is_positive, named};
use crate::trail::{Trail, at_place, is_open, is_true, truth};
use bg_formula::{Atom, Clauses, Literal};
use bg_simplex::Lit;
use std::alloc::{AllocError, Global};

/// Whether a literal of the clause is true.
pub fn is_met(trail: &Trail, clause: &[Literal]) -> bool {
    for l in clause {
        if is_true(trail, named(l)) {
            return true;
        }
    }
    false
}

/// Whether a clause is one of those in which the entry goes on in one of several ways.
pub fn is_opening(e: &Engine<'_>, at: usize) -> bool {
    match e.front.openings.get(at) {
        Some(yes) => *yes,
        None => false,
    }
}

/// Whether a clause says something of a block or of a part of a form that is reached: it begins with the denial of a truth atom that
/// is true, or the entry goes on by it in one of several ways.
pub fn is_reached(e: &Engine<'_>, at: usize) -> bool {
    let f = e.formula;
    let Some(clause) = f.clauses.get(at) else {
        return false;
    };
    let Some(l) = clause.first() else {
        return false;
    };
    match f.atoms.get(l.atom as usize) {
        Some(Atom::Truth(_)) => {
            is_opening(e, at) || (!l.sign && matches!(truth(&e.trail, named(l)), Some(false)))
        }
        _ => false,
    }
}

/// The first undecided literal of a clause, as it stands in the formula, if no literal of the clause is true.
fn open_in(trail: &Trail, clause: &[Literal]) -> Option<Lit> {
    if is_met(trail, clause) {
        return None;
    }
    for l in clause {
        let l = named(l);
        if is_open(trail, l) {
            return Some(l);
        }
    }
    None
}

/// Where a clause to decide was searched. A clause before `from` isn't both reached and open, unless it begins with the denial of an atom
/// that became true behind the first `seen` literals of the trail. None but the first `rest` clauses is open.
#[derive(Clone, Copy)]
pub struct Searched {
    pub from: usize,
    pub seen: usize,
    pub rest: usize,
}

/// Where a clause to decide was searched; of each atom that stands for a truth the first clause that begins with its denial, a number
/// behind all clauses where there is none; and of each clause, whether the entry goes on by it in one of several ways.
#[derive(Drop)]
pub struct Front {
    pub searched: Searched,
    pub heads: Vec<usize>,
    pub openings: Vec<bool>,
}

/// What the clauses so far name: which atoms, and which of these first by a clause that begins with its denial, as a block and a part
/// of a form are told.
#[derive(Drop)]
struct Names {
    named: Vec<bool>,
    told: Vec<bool>,
}

/// Takes in what a clause names.
fn note(names: &mut Names, clause: &[Literal]) {
    if let Some(l) = clause.first() {
        let is_new = matches!(names.named.get(l.atom as usize), Some(false));
        if let Some(is_told) = names.told.get_mut(l.atom as usize) {
            *is_told = *is_told || (is_new && !l.sign);
        }
    }
    for l in clause {
        if let Some(is_named) = names.named.get_mut(l.atom as usize) {
            *is_named = true;
        }
    }
}

/// Whether a clause begins with a block or a part of a form that was told before: what is told of others begins with their denials, so
/// the entry goes on there, or in the way that the rest of the clause names.
fn opens(f: &Clauses, names: &Names, clause: &[Literal]) -> bool {
    let Some(l) = clause.first() else {
        return false;
    };
    let is_told = matches!(names.told.get(l.atom as usize), Some(true));
    l.sign && is_told && matches!(f.atoms.get(l.atom as usize), Some(Atom::Truth(_)))
}

/// Of each clause, whether the entry goes on by it in one of several ways.
fn openings(alloc: Global, f: &Clauses) -> Result<Vec<bool>, AllocError> {
    let mut names = Names {
        named: vec![in alloc; false; f.atoms.len()]?,
        told: vec![in alloc; false; f.atoms.len()]?,
    };
    let mut made = Vec::with_capacity(alloc, f.clauses.len())?;
    for clause in &f.clauses {
        made.push(opens(f, &names, clause))?;
        note(&mut names, clause);
    }
    Ok(made)
}

/// The atom of which a clause says something where it is true: the clause begins with its denial.
fn head_of(f: &Clauses, clause: &[Literal]) -> Option<u32> {
    let l = clause.first()?;
    match f.atoms.get(l.atom as usize) {
        Some(Atom::Truth(_)) if !l.sign => Some(l.atom),
        _ => None,
    }
}

/// Before the search for a clause of a formula.
pub fn new_front(alloc: Global, f: &Clauses) -> Result<Front, AllocError> {
    let mut heads = vec![in alloc; usize::MAX; f.atoms.len()]?;
    for at in (0..f.clauses.len()).rev() {
        if let Some(clause) = f.clauses.get(at) {
            if let Some(a) = head_of(f, clause) {
                if let Some(head) = heads.get_mut(a as usize) {
                    *head = at;
                }
            }
        }
    }
    Ok(Front {
        searched: Searched {
            from: 0,
            seen: 0,
            rest: f.clauses.len(),
        },
        heads,
        openings: openings(alloc, f)?,
    })
}

/// Begins no later than at the clauses that are reached by what became true since the last time.
fn lower(front: &mut Front, trail: &Trail) {
    for place in front.searched.seen..trail.len {
        match at_place(trail, place) {
            Some(l) if is_positive(l) => {
                if let Some(head) = front.heads.get(atom_of(l)) {
                    front.searched.from = front.searched.from.min(*head);
                }
            }
            _ => {}
        }
    }
    front.searched.seen = trail.len;
}

/// A literal of the open clause that is reached and stands last in the program: clauses stand from the last block back. So the search
/// goes back from the claim, and decides nothing that it doesn't need. And the place of the clause; behind all where there is none.
fn last_reached(e: &Engine<'_>) -> (usize, Option<Lit>) {
    let f = e.formula;
    for at in e.front.searched.from..f.clauses.len() {
        if let Some(clause) = f.clauses.get(at) {
            if is_reached(e, at) {
                let found = open_in(&e.trail, clause);
                if found.is_some() {
                    return (at, found);
                }
            }
        }
    }
    (f.clauses.len(), None)
}

/// A literal of the open clause that stands first in the program, and how many clauses stand no later there than it.
fn first_open(e: &Engine<'_>) -> (usize, Option<Lit>) {
    for at in (0..e.front.searched.rest).rev() {
        if let Some(clause) = e.formula.clauses.get(at) {
            let found = open_in(&e.trail, clause);
            if found.is_some() {
                return (at.saturating_add(1), found);
            }
        }
    }
    (0, None)
}

/// A literal to decide: of the last open clause of the program that is reached, or else of the first open one. None where no clause is
/// open.
pub fn next_literal(e: &mut Engine<'_>) -> Option<Lit> {
    lower(&mut e.front, &e.trail);
    let (at, found) = last_reached(e);
    e.front.searched.from = at;
    if found.is_some() {
        return found;
    }
    let (rest, found) = first_open(e);
    e.front.searched.rest = rest;
    found
}
