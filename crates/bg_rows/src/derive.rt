//! Derivations of a false row.
ghost use Rattle.std.specs.Prelude.{◌≡◌, map, IfOk, [], false, pos, int_le, ◌&&◌};
ghost use Rattle.bg_rows.specs.Rows.{row_of};
ghost use Rattle.bg_rows.specs.Steps.{row_at, step_row, derives, view_row, sum_if, sum_row};

use crate::made::{copy, is_false};
use crate::refused::Refused;
use crate::row::Row;
use crate::step::Step;
use crate::sums::combine;
use crate::tight::tighten;
use std::alloc::{AllocError, Global};

/// The sum of two multiples, if the multipliers are at least 0 and it stays in range.
fn sum_if(alloc: Global, a: &Row, p: i128, b: &Row, q: i128) -> Result<Option<Row>, AllocError>
    ensures { IfOk result (λ r. view_row r ≡ sum_if (int_le (pos 0) p && int_le (pos 0) q) (row_of a.now) p (row_of b.now) q) }
{
    if p < 0 {
        return Ok(None);
    }
    if q < 0 {
        return Ok(None);
    }
    match combine(alloc, a, p, b, q) {
        Ok(row) => Ok(Some(row)),
        Err(Refused::Range(_)) => Ok(None),
        Err(Refused::Memory) => Err(AllocError),
    }
}

/// The sum of two earlier rows' multiples, if there is one.
#[tactic(auto, using(crate::proofs::Places::at_map_there, crate::proofs::Places::at_map_missing))]
fn sum_row(
    alloc: Global,
    made: &[Row],
    r: u128,
    p: i128,
    s: u128,
    q: i128,
) -> Result<Option<Row>, AllocError>
    ensures { IfOk result (λ x. view_row x ≡ sum_row (row_at (map row_of made.now) r) p (row_at (map row_of made.now) s) q) }
{
    if r >= made.len() as u128 {
        return Ok(None);
    }
    if s >= made.len() as u128 {
        return Ok(None);
    }
    let r = r as usize;
    let s = s as usize;
    sum_if(alloc, &made[r], p, &made[s], q)
}

/// The row of a step, if there is one.
#[tactic(auto, using(crate::proofs::Places::at_map_there, crate::proofs::Places::at_map_missing))]
fn step_row(
    alloc: Global,
    path: &[Row],
    made: &[Row],
    step: &Step,
) -> Result<Option<Row>, AllocError>
    ensures { IfOk result (λ r. view_row r ≡ step_row (map row_of path.now) (map row_of made.now) step.now) }
{
    match *step {
        Step::Path(j) => {
            if j < path.len() as u128 {
                let j = j as usize;
                Ok(Some(copy(alloc, &path[j])?))
            } else {
                Ok(None)
            }
        }
        Step::Sum(r, p, s, q) => sum_row(alloc, made, r, p, s, q),
        Step::Tight(r) => {
            if r < made.len() as u128 {
                let r = r as usize;
                Ok(Some(tighten(alloc, &made[r])?))
            } else {
                Ok(None)
            }
        }
    }
}

/// Whether each step makes a row, the last one false.
pub fn derives(alloc: Global, path: &[Row], steps: &[Step]) -> Result<bool, AllocError>
    ensures { IfOk result (λ said. said ≡ derives (map row_of path.now) [] false steps.now) }
{
    let mut made = Vec::new(alloc);
    let mut last = false;
    for step in steps {
        match step_row(alloc, path, &made, step)? {
            None => return Ok(false),
            Some(r) => {
                last = is_false(&r);
                made.push(r)?;
            }
        }
    }
    Ok(last)
}
