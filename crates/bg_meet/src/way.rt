//! What holds behind an alternative of a clause.

use crate::occurs::{Occurs, clauses_of};
use bg_formula::Literal;
use bg_simplex::{Lit, Simplex, high, low};
use bg_solved::Equation;
use bg_trail::{
    Engine, Trail, at_place, form_of, is_met, is_open, is_reached, limit_of, named, negated,
    start_of,
};
use std::alloc::{AllocError, Global};

/// The fewest and the most alternatives of a clause that is looked at.
const FEWEST: usize = 2;

const MOST: usize = 4;

/// An alternative: its literal; the open clause behind it that stands first in the program; the literals that are true with it; the
/// columns that these bound; the sums that have one value there; and the greatest and least values of some columns there.
#[derive(Drop)]
pub struct Way {
    pub literal: Lit,
    pub front: Option<u32>,
    pub literals: Vec<Lit>,
    pub columns: Vec<u32>,
    pub fixed: Vec<Equation>,
    pub most: Vec<Option<i128>>,
}

/// Whether a clause has no true literal, and two to four undecided ones.
pub fn is_branch(trail: &Trail, clause: &[Literal]) -> bool {
    if is_met(trail, clause) {
        return false;
    }
    let mut open: usize = 0;
    for l in clause {
        if is_open(trail, named(l)) {
            open = open.saturating_add(1);
        }
    }
    FEWEST <= open && open <= MOST
}

/// The first open clause in the program, of those that a literal touches and of `best`.
fn front_by(e: &Engine<'_>, occurs: &Occurs, l: Lit, best: Option<u32>) -> Option<u32> {
    let mut best = best;
    for c in clauses_of(occurs, negated(l)) {
        let is_before = match best {
            Some(b) => b < *c,
            None => true,
        };
        if is_before {
            if let Some(clause) = e.formula.clauses.get(*c as usize) {
                if is_reached(e, *c as usize) && is_branch(&e.trail, clause) {
                    best = Some(*c);
                }
            }
        }
    }
    best
}

/// The value of a column, if its bounds leave it one alone.
pub fn only_value(simplex: &Simplex, column: u32) -> Option<i128> {
    let a = low(simplex, column)?;
    let b = high(simplex, column)?;
    if a.value == b.value {
        Some(a.value)
    } else {
        None
    }
}

/// The sum that a column stands for, as an equation.
pub fn equation(
    alloc: Global,
    e: &Engine<'_>,
    column: u32,
    bound: i128,
) -> Result<Equation, AllocError> {
    Ok(Equation {
        entries: form_of(&e.columns, column).to_vec(alloc)?,
        bound,
    })
}

/// The sums of these columns that have one value.
fn fixed_of(e: &Engine<'_>, columns: &[u32]) -> Result<Vec<Equation>, AllocError> {
    let mut made = Vec::new(e.alloc);
    for c in columns {
        if let Some(v) = only_value(&e.simplex, *c) {
            made.push(equation(e.alloc, e, *c, v)?)?;
        }
    }
    Ok(made)
}

/// The columns that literals bound, each once, rising.
fn columns_of(e: &Engine<'_>, literals: &[Lit]) -> Result<Vec<u32>, AllocError> {
    let mut made = Vec::new(e.alloc);
    for l in literals {
        if let Some(limit) = limit_of(&e.columns, *l) {
            made.push(limit.column)?;
        }
    }
    made.sort()?;
    made.dedup();
    Ok(made)
}

/// What holds behind an alternative, which was decided last.
pub fn gather(e: &Engine<'_>, occurs: &Occurs, literal: Lit) -> Result<Way, AllocError> {
    let mut literals = Vec::new(e.alloc);
    let mut front = None;
    for place in start_of(&e.trail, e.trail.level)..e.trail.len {
        if let Some(l) = at_place(&e.trail, place) {
            literals.push(l)?;
            front = front_by(e, occurs, l, front);
        }
    }
    let columns = columns_of(e, &literals)?;
    let fixed = fixed_of(e, &columns)?;
    Ok(Way {
        literal,
        front,
        literals,
        columns,
        fixed,
        most: Vec::new(e.alloc),
    })
}
