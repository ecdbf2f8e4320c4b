//! The trail: the atoms' values, in the order in which they came, by levels of decisions (Silva and Sakallah, GRASP: a new search
//! algorithm for satisfiability, 1996). The room of an atom is made with it, so that a value takes no memory.

use crate::literals::{atom_of, is_positive};
use crate::order::Searched;
use bg_simplex::Lit;
use std::alloc::{AllocError, Global};

/// The value of an atom, if it has one; the level of decisions at which it came, and its place on the trail.
#[derive(Clone, Copy)]
pub struct Standing {
    pub value: Option<bool>,
    pub level: usize,
    pub place: usize,
}

/// Where a level begins: how long the trail was, the simplex's list of changes, and the list of rows that reasons add up; and where a
/// clause to decide was searched.
#[derive(Clone, Copy)]
pub struct Start {
    pub place: usize,
    pub mark: usize,
    pub parts: usize,
    pub searched: Searched,
}

/// The atoms' values; the true literals in their order, `len` of them; where each of the `level` levels above the root begins; and how
/// many of the true literals unit propagation has seen, and the simplex.
#[derive(Drop)]
pub struct Trail {
    pub atoms: Vec<Standing>,
    pub order: Vec<Lit>,
    pub len: usize,
    pub starts: Vec<Start>,
    pub level: usize,
    pub head: usize,
    pub rows: usize,
}

/// What holds of an atom without a value.
const NO_VALUE: Standing = Standing {
    value: None,
    level: 0,
    place: 0,
};

/// Where no level has begun yet.
const NO_START: Start = Start {
    place: 0,
    mark: 0,
    parts: 0,
    searched: Searched {
        from: 0,
        seen: 0,
        rest: 0,
    },
};

/// The trail of no values, with room for so many atoms.
pub fn new_trail(alloc: Global, atoms: usize) -> Result<Trail, AllocError> {
    Ok(Trail {
        atoms: vec![in alloc; NO_VALUE; atoms]?,
        order: vec![in alloc; 0; atoms]?,
        len: 0,
        starts: vec![in alloc; NO_START; atoms]?,
        level: 0,
        head: 0,
        rows: 0,
    })
}

/// Makes room for one atom more, without a value.
pub fn grow_trail(trail: &mut Trail) -> Result<(), AllocError> {
    trail.atoms.push(NO_VALUE)?;
    trail.order.push(0)?;
    trail.starts.push(NO_START)?;
    Ok(())
}

/// Whether a literal is true, or false, if its atom has a value.
pub fn truth(trail: &Trail, l: Lit) -> Option<bool> {
    let s = trail.atoms.get(atom_of(l))?;
    let value = s.value?;
    Some(value == is_positive(l))
}

pub fn is_true(trail: &Trail, l: Lit) -> bool {
    matches!(truth(trail, l), Some(true))
}

pub fn is_false(trail: &Trail, l: Lit) -> bool {
    matches!(truth(trail, l), Some(false))
}

pub fn is_open(trail: &Trail, l: Lit) -> bool {
    truth(trail, l).is_none()
}

/// The level at which a literal's atom got its value.
pub fn level_of(trail: &Trail, l: Lit) -> usize {
    match trail.atoms.get(atom_of(l)) {
        Some(s) => s.level,
        None => 0,
    }
}

/// The place of a literal's atom on the trail.
pub fn place_of(trail: &Trail, l: Lit) -> usize {
    match trail.atoms.get(atom_of(l)) {
        Some(s) => s.place,
        None => 0,
    }
}

/// The true literal of this place.
pub fn at_place(trail: &Trail, place: usize) -> Option<Lit> {
    if place < trail.len {
        trail.order.get(place).copied()
    } else {
        None
    }
}

/// How long the trail was when a level above the root began.
pub fn start_of(trail: &Trail, level: usize) -> usize {
    match level.checked_sub(1) {
        Some(k) => match trail.starts.get(k) {
            Some(s) => s.place,
            None => 0,
        },
        None => 0,
    }
}

/// Makes a literal true at this level, behind the others.
pub fn put(trail: &mut Trail, l: Lit) {
    let level = trail.level;
    let place = trail.len;
    if let Some(s) = trail.atoms.get_mut(atom_of(l)) {
        *s = Standing {
            value: Some(is_positive(l)),
            level,
            place,
        };
    }
    if let Some(o) = trail.order.get_mut(place) {
        *o = l;
        trail.len = place.saturating_add(1);
    }
}

/// Takes back the value of the last literal.
pub fn pop(trail: &mut Trail) -> Option<Lit> {
    let place = trail.len.checked_sub(1)?;
    let l = *trail.order.get(place)?;
    trail.len = place;
    if let Some(s) = trail.atoms.get_mut(atom_of(l)) {
        s.value = None;
    }
    Some(l)
}

/// Begins a level.
pub fn rise(trail: &mut Trail, start: Start) {
    let level = trail.level;
    if let Some(s) = trail.starts.get_mut(level) {
        *s = start;
        trail.level = level.saturating_add(1);
    }
}
