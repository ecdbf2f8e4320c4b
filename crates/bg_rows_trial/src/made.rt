//! Rows and formulas of tables.
ghost use Rattle.std.specs.Prelude.{◌≡◌};
ghost use Rattle.bg_rows.specs.Entries.{rising};

use bg_formula::{Atom, Clauses, Linear, Literal, deny_row};
use bg_rows::{Entry, Row};
use std::alloc::{AllocError, Global};
use std::test::Fail;

/// Variables with their coefficients.
pub type Entries = &'static [(u32, i128)];

/// A row's entries and its bound.
pub type Given = (Entries, i128);

/// The atoms of a clause with their signs.
pub type Signed = &'static [(u32, bool)];

/// Whether the variables rise and no coefficient is 0.
fn is_rising(entries: &[Entry]) -> bool
    ensures { result ≡ rising 0 entries.now }
{
    let mut low: u64 = 0;
    for t in entries {
        if (t.variable as u64) < low {
            return false;
        }
        if t.by == 0 {
            return false;
        }
        low = t.variable as u64 + 1;
    }
    true
}

pub fn row(alloc: Global, given: Given) -> Result<Row, Fail> {
    let mut entries = Vec::new(alloc);
    for (variable, by) in given.0 {
        entries.push(Entry {
            variable: *variable,
            by: *by,
        })?;
    }
    let bound = given.1;
    if is_rising(&entries) {
        Ok(Row { entries, bound })
    } else {
        Err("no row".into())
    }
}

pub fn rows(alloc: Global, given: &[Given]) -> Result<Vec<Row>, Fail> {
    let mut made = Vec::new(alloc);
    for one in given {
        made.push(row(alloc, *one)?)?;
    }
    Ok(made)
}

pub fn clause(alloc: Global, literals: &[(u32, bool)]) -> Result<Vec<Literal>, AllocError> {
    let mut made = Vec::new(alloc);
    for (atom, sign) in literals {
        made.push(Literal {
            atom: *atom,
            sign: *sign,
        })?;
    }
    Ok(made)
}

fn linear(alloc: Global, given: Given) -> Result<Linear, Fail> {
    match deny_row(alloc, row(alloc, given)?) {
        Ok(both) => Ok(both),
        Err(_) => Err("no denial".into()),
    }
}

/// Atoms of rows, and behind them those of so many truth variables.
fn atoms(alloc: Global, given: &[Given], truths: u32) -> Result<Vec<Atom>, Fail> {
    let mut made = Vec::new(alloc);
    for one in given {
        made.push(Atom::Holds(linear(alloc, *one)?))?;
    }
    for x in 0..truths {
        made.push(Atom::Truth(x))?;
    }
    Ok(made)
}

/// Clauses over rows of five terms and, behind them, so many truth variables.
pub fn formula(
    alloc: Global,
    given: &[Given],
    truths: u32,
    signed: &[Signed],
) -> Result<Clauses, Fail> {
    let atoms = atoms(alloc, given, truths)?;
    let mut clauses = Vec::new(alloc);
    for literals in signed {
        clauses.push(clause(alloc, literals)?)?;
    }
    Ok(Clauses {
        terms: 5,
        atoms,
        clauses,
        candidates: Vec::new(alloc),
    })
}
