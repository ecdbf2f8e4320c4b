//! The rows of a path.
ghost use Rattle.std.specs.Prelude.{◌≡◌, map, IfOk, ◌++◌, ◌∷◌, [], OnOk, false};
ghost use Rattle.bg_rows.specs.Entries.{is_zero};
ghost use Rattle.bg_rows.specs.Rows.{row_of};
ghost use Rattle.bg_rows.specs.Steps.{view_row};
ghost use Rattle.bg_formula.specs.Atoms.{atom_of};
ghost use Rattle.bg_cert.specs.Paths.{row_of_decision, in_front, rows_on};

use crate::cert::Decision;
use bg_formula::Atom;
use bg_rows::{Entry, Row, copy};
use std::alloc::{AllocError, Global};

/// The row that bounds a variable by a number.
fn one_entry(alloc: Global, variable: u32, by: i128, bound: i128) -> Result<Row, AllocError>
    requires { is_zero by ≡ false }
    ensures { IfOk result (λ r. row_of r ≡ record { entries = record { variable = variable; by = by } ∷ []; bound = bound }) }
{
    let mut entries = Vec::new(alloc);
    entries.push(Entry { variable, by })?;
    Ok(Row { entries, bound })
}

/// The row of a decision, if it has one. Only want of memory is an error.
#[tactic(auto, using(crate::proofs::Places::at_map_there, crate::proofs::Places::at_map_missing))]
pub fn row_of_decision(
    alloc: Global,
    atoms: &[Atom],
    d: &Decision,
) -> Result<Option<Row>, AllocError>
    ensures { IfOk result (λ r. view_row r ≡ row_of_decision (map atom_of atoms.now) d.now) }
{
    match *d {
        Decision::Atom(a, s) => {
            if a < atoms.len() {
                match &atoms[a] {
                    Atom::Truth(_) => Ok(None),
                    Atom::Holds(l) => {
                        if s {
                            Ok(Some(copy(alloc, &l.row)?))
                        } else {
                            Ok(Some(copy(alloc, &l.denial)?))
                        }
                    }
                }
            } else {
                Ok(None)
            }
        }
        Decision::AtMost(x, k, s) => {
            if s {
                Ok(Some(one_entry(alloc, x, 1, k)?))
            } else {
                Ok(Some(one_entry(alloc, x, -1, -1 - k)?))
            }
        }
    }
}

/// A decision's row behind those made, if it has one.
fn push_row(
    alloc: Global,
    made: &mut Vec<Row>,
    atoms: &[Atom],
    d: &Decision,
) -> Result<(), AllocError>
    ensures { OnOk result (map row_of made.new.items ≡ map row_of made.old.items ++ in_front (row_of_decision (map atom_of atoms.now) d.now) []) }
{
    if let Some(r) = row_of_decision(alloc, atoms, d)? {
        made.push(r)?;
    }
    Ok(())
}

/// The rows of a path, in its order.
pub fn rows_on(
    alloc: Global,
    atoms: &[Atom],
    decisions: &[Decision],
) -> Result<Vec<Row>, AllocError>
    ensures { IfOk result (λ v. map row_of v.items ≡ rows_on (map atom_of atoms.now) decisions.now) }
{
    let mut made = Vec::new(alloc);
    for d in decisions {
        push_row(alloc, &mut made, atoms, d)?;
    }
    Ok(made)
}
