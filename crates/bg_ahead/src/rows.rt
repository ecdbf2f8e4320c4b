//! Rows behind others.
ghost use Rattle.std.specs.Prelude.{◌≡◌, ◌+◌, ◌++◌, length, map, IfOk};
ghost use Rattle.bg_formula.specs.Atoms.{view_linear};
ghost use Rattle.bg_atoms.specs.Made.{rows_in};
ghost use Rattle.bg_ahead.specs.Rows.{fresh, stays, goes};

use crate::known::{found, known, next};
use bg_formula::{Linear, Literal};
use bg_rows::copy;
use std::alloc::{AllocError, Global};

/// Rows, and where atoms go.
#[derive(Drop)]
pub struct Merged {
    pub rows: Vec<Linear>,
    pub goes: Vec<Literal>,
}

/// The same row with its denial.
fn copied(alloc: Global, a: &Linear) -> Result<Linear, AllocError>
    ensures { IfOk result (λ x. view_linear x ≡ view_linear a.now) }
{
    let row = copy(alloc, &a.row)?;
    let denial = copy(alloc, &a.denial)?;
    Ok(Linear { row, denial })
}

/// The first n atoms.
fn stays(alloc: Global, n: u32) -> Result<Vec<Literal>, AllocError>
    ensures { IfOk result (λ made. made.items ≡ stays 0 n) }
{
    let mut made = Vec::new(alloc);
    for atom in 0..n {
        made.push(Literal { atom, sign: true })?;
    }
    Ok(made)
}

/// The atom behind rows that are the atoms from m on; 2^32 atoms count as want of memory.
fn behind(m: u32, rows: &[Linear]) -> Result<u32, AllocError>
    ensures { IfOk result (λ n. n ≡ m + length rows.now) }
{
    let count = match u32::try_from(rows.len()) {
        Ok(n) => n,
        Err(_) => return Err(AllocError),
    };
    match m.checked_add(count) {
        Some(n) => Ok(n),
        None => Err(AllocError),
    }
}

/// The rows in front, which are the atoms from m on, with those of others that are fresh behind them, and where the first n atoms and those of
/// these others go.
pub fn beside(
    alloc: Global,
    n: u32,
    m: u32,
    front: Vec<Linear>,
    rows: &[Linear],
) -> Result<Merged, AllocError>
    ensures rows { IfOk result (λ made. rows_in made.rows ≡ rows_in front ++ fresh (rows_in front) (map view_linear rows.now)) }
    ensures goes { IfOk result (λ made. made.goes.items ≡ goes n m (rows_in front) (map view_linear rows.now)) }
{
    let table = known(alloc, m, &front)?;
    let mut goes = stays(alloc, n)?;
    let mut atom = behind(m, &front)?;
    let mut made = front;
    for a in rows {
        match found(alloc, &table, a)? {
            Some(l) => goes.push(l)?,
            None => {
                goes.push(Literal { atom, sign: true })?;
                made.push(copied(alloc, a)?)?;
                atom = next(atom)?;
            }
        }
    }
    Ok(Merged { rows: made, goes })
}
