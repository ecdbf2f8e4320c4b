//! Rows are compared with kept rows of the same entries.
ghost use Rattle.std.specs.Prelude.{◌≡◌, IfOk, Some};
ghost use Rattle.bg_rows.specs.Rows.{row_of};
ghost use Rattle.bg_rows.specs.Steps.{row_at};
ghost use Rattle.bg_elim.specs.Kept.{entries_eq};
ghost use Rattle.bg_elim.specs.Work.{WorkOf, work_of, IsStand};

use crate::work::{Stand, Work};
use bg_rows::{Entry, Row, key};
use std::alloc::{AllocError, Global};

/// Whether two lists of entries are equal.
pub fn are_equal(a: &[Entry], b: &[Entry]) -> bool
    ensures { result ≡ entries_eq a.now b.now }
{
    if a.len() != b.len() {
        return false;
    }
    for i in 0..a.len() {
        if a[i].variable != b[i].variable {
            return false;
        }
        if a[i].by != b[i].by {
            return false;
        }
    }
    true
}

/// How a row stands to the kept row of a number.
fn against(kept: &Row, n: usize, row: &Row) -> Stand
    ensures { (w : WorkOf) → row_at w.rows n ≡ Some (row_of kept.now) → IsStand w (row_of row.now) result }
{
    if !are_equal(&kept.entries, &row.entries) {
        return Stand::Alone;
    }
    if kept.bound <= row.bound {
        Stand::Implied(n)
    } else {
        Stand::Nearer(n)
    }
}

/// How a row stands to the nearest kept row of the same entries: keys are in the order of their
/// entries, then of their bounds. Only want of memory is an error.
pub fn stand(alloc: Global, work: &Work, row: &Row) -> Result<Stand, AllocError>
    ensures { IfOk result (λ s. IsStand (work_of work.now) (row_of row.now) s) }
{
    let mut low = key(alloc, row)?;
    low.1 = i128::MIN;
    let Some((_, n)) = work.at.range(&low..).next() else {
        return Ok(Stand::Alone);
    };
    let n = *n;
    if n < work.rows.len() {
        Ok(against(&work.rows[n], n, row))
    } else {
        Ok(Stand::Alone)
    }
}
