//! Rows as atoms; those that are not kept are left out.
ghost use Rattle.std.specs.Prelude.{◌≡◌, ◌++◌, map, IfOk, OnOk};
ghost use Rattle.bg_formula.specs.Atoms.{atom_of, view_linear};
ghost use Rattle.bg_slice.specs.Slices.{no_row, row_if};
ghost use Rattle.bg_slice.specs.Marks.{marked_rows};

use bg_formula::{Atom, Linear};
use bg_rows::{Row, copy};
use std::alloc::{AllocError, Global};

/// The row 0 <= 0.
fn no_row(alloc: Global) -> Linear
    ensures { view_linear result ≡ no_row }
{
    let row = Row {
        entries: Vec::new(alloc),
        bound: 0,
    };
    let denial = Row {
        entries: Vec::new(alloc),
        bound: -1,
    };
    Linear { row, denial }
}

/// The same row with its denial.
fn copied(alloc: Global, a: &Linear) -> Result<Linear, AllocError>
    ensures { IfOk result (λ x. view_linear x ≡ view_linear a.now) }
{
    let row = copy(alloc, &a.row)?;
    let denial = copy(alloc, &a.denial)?;
    Ok(Linear { row, denial })
}

/// The row, if it is kept.
fn row_if(alloc: Global, kept: bool, a: &Linear) -> Result<Linear, AllocError>
    ensures { IfOk result (λ x. view_linear x ≡ row_if kept (view_linear a.now)) }
{
    if kept {
        copied(alloc, a)
    } else {
        Ok(no_row(alloc))
    }
}

/// Rows by their marks as atoms.
pub fn add_rows(
    alloc: Global,
    atoms: &mut Vec<Atom>,
    kept: &[bool],
    rows: &[Linear],
) -> Result<(), AllocError>
    ensures { OnOk result (map atom_of atoms.new.items ≡ map atom_of atoms.old.items ++ marked_rows kept.now (map view_linear rows.now)) }
{
    let mut left: &[bool] = kept;
    for a in rows {
        let is_kept = match left.split_first() {
            Some((m, more)) => {
                left = more;
                *m
            }
            None => false,
        };
        let x = row_if(alloc, is_kept, a)?;
        atoms.push(Atom::Holds(x))?;
    }
    Ok(())
}
