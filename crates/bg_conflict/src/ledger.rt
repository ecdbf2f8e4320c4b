//! The classes of a formula's rows, and which row of each is the nearest on a path.

use crate::class::{Class, Near, class_of};
use bg_formula::{Atom, Clauses};
use bg_rows::{Row, key, tighten};
use std::alloc::{AllocError, Global};
use std::collections::BTreeMap;

/// Where a row sits: its class, and its bound once it is tightened.
#[derive(Clone, Copy)]
pub struct Seat {
    pub class: usize,
    pub bound: i128,
}

/// The seats of an atom's row and of its denial, each once it is asked for.
#[derive(Clone, Copy)]
pub struct Seats {
    pub row: Option<Seat>,
    pub denial: Option<Seat>,
}

/// That a decision's row became the nearest of its class, and which one was before.
#[derive(Clone, Copy)]
pub struct Undo {
    pub at: usize,
    pub class: usize,
    pub old: Option<Near>,
}

/// The classes, found by their entries; the seats of each atom that were asked for; for each variable the classes with
/// it that have a nearest row, in the order in which they came to have one, and the turn in which it
/// was last reached; what the decisions changed, in their order, and how many of these changes the
/// last elimination in vain saw; how many decisions are noted; and the number of the last turn.
#[derive(Drop)]
pub struct Ledger {
    pub ids: BTreeMap<Vec<(u32, i128)>, usize>,
    pub classes: Vec<Class>,
    pub seats: Vec<Seats>,
    pub standing: Vec<Vec<usize>>,
    pub stamps: Vec<u64>,
    pub log: Vec<Undo>,
    pub told: usize,
    pub seen: usize,
    pub turn: u64,
}

/// The seat of a row, whose class is made where there was none.
fn seat_of(alloc: Global, ledger: &mut Ledger, row: &Row) -> Result<Seat, AllocError> {
    let tight = tighten(alloc, row)?;
    let (entries, bound) = key(alloc, &tight)?;
    let class = class_of(alloc, ledger, entries)?;
    Ok(Seat { class, bound })
}

/// The row of an atom that is decided with this sign, if it has one.
fn decided<'a>(f: &'a Clauses, a: usize, sign: bool) -> Option<&'a Row> {
    match f.atoms.get(a) {
        Some(Atom::Holds(both)) => Some(if sign { &both.row } else { &both.denial }),
        _ => None,
    }
}

/// Keeps a seat for the next time that it is asked for.
fn put(ledger: &mut Ledger, a: usize, sign: bool, seat: Seat) {
    if let Some(seats) = ledger.seats.get_mut(a) {
        if sign {
            seats.row = Some(seat);
        } else {
            seats.denial = Some(seat);
        }
    }
}

/// The seat that is kept.
fn kept(ledger: &Ledger, a: usize, sign: bool) -> Option<Seat> {
    let seats = ledger.seats.get(a)?;
    if sign { seats.row } else { seats.denial }
}

/// The seat of an atom's row, or of its denial, if it has one; it is made where none is kept.
pub fn seat_at(
    alloc: Global,
    f: &Clauses,
    ledger: &mut Ledger,
    a: usize,
    sign: bool,
) -> Result<Option<Seat>, AllocError> {
    if let Some(seat) = kept(ledger, a, sign) {
        return Ok(Some(seat));
    }
    match decided(f, a, sign) {
        Some(row) => {
            let seat = seat_of(alloc, ledger, row)?;
            put(ledger, a, sign, seat);
            Ok(Some(seat))
        }
        None => Ok(None),
    }
}

/// A ledger of no decisions. Takes time for each atom and each term; a row's seat is made when it
/// is first decided, in time for its entries and the logarithm of the number of classes. Only want
/// of memory is an error.
pub fn new_ledger(alloc: Global, f: &Clauses) -> Result<Ledger, AllocError> {
    let nothing = Seats {
        row: None,
        denial: None,
    };
    let mut standing = Vec::new(alloc);
    for _ in 0..f.terms {
        standing.push(Vec::new(alloc))?;
    }
    Ok(Ledger {
        ids: BTreeMap::new(alloc),
        classes: Vec::new(alloc),
        seats: vec![in alloc; nothing; f.atoms.len()]?,
        standing,
        stamps: vec![in alloc; 0; f.terms as usize]?,
        log: Vec::new(alloc),
        told: 0,
        seen: 0,
        turn: 0,
    })
}
