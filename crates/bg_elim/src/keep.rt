//! Rows are kept once.
ghost use Rattle.std.specs.Prelude.{◌≡◌, ◌≤◌, true, IfOk, OnOk, length, None, option_copied};
ghost use Rattle.bg_rows.specs.Rows.{row_of};
ghost use Rattle.bg_rows.specs.Keys.{key_of};
ghost use Rattle.bg_elim.specs.declared.order.Reason.TheVariants.{Tightened};
ghost use Rattle.bg_elim.specs.Keys.{place_of};
ghost use Rattle.bg_elim.specs.Work.{work_of, with_row, IsIndexed, KeptAs, IsPlace};

use crate::order::Reason;
use crate::stand::are_equal;
use crate::work::Work;
use bg_rows::{Key, Row, key};
use std::alloc::{AllocError, Global};

/// The number of the row with this key, if it is kept.
fn find(work: &Work, key: &Key) -> Option<usize>
    requires { IsIndexed work.now }
    ensures { result ≡ place_of (key.now.0.items, key.now.1) 0 (work_of work.now).rows }
{
    work.at.get(key).copied()
}

/// One more row, with its key and its reason. It isn't paired yet.
fn push(work: &mut Work, key: Key, row: Row, reason: Reason) -> Result<(), AllocError>
    requires indexed { IsIndexed work.old }
    requires key { (key.0.items, key.1) ≡ key_of (row_of row) }
    requires new { place_of (key_of (row_of row)) 0 (work_of work.old).rows ≡ None }
    ensures indexed { OnOk result (IsIndexed work.new) }
    ensures work { OnOk result (work_of work.new ≡ with_row (work_of work.old) (row_of row) reason) }
{
    let n = work.rows.len();
    work.at.insert(key, n)?;
    work.rows.push(row)?;
    work.reasons.push(reason)?;
    work.live.push(false)?;
    Ok(())
}

/// The number of a row that is kept, perhaps from now on; None where it isn't kept and there are
/// as many as the budget says.
pub fn keep(
    alloc: Global,
    work: &mut Work,
    row: Row,
    reason: Reason,
    budget: u32,
) -> Result<Option<usize>, AllocError>
    requires indexed { IsIndexed work.old }
    requires room { length (work_of work.old).rows ≤ budget }
    ensures indexed { OnOk result (IsIndexed work.new) }
    ensures room { OnOk result (length (work_of work.new).rows ≤ budget) }
    ensures kept { OnOk result (KeptAs (work_of work.old) (row_of row) reason (work_of work.new)) }
    ensures place { IfOk result (λ n. IsPlace budget (row_of row) (work_of work.new) n) }
{
    let key = key(alloc, &row)?;
    if let Some(n) = find(work, &key) {
        return Ok(Some(n));
    }
    let n = work.rows.len();
    if n >= budget as usize {
        return Ok(None);
    }
    push(work, key, row, reason)?;
    Ok(Some(n))
}

/// Whether two rows are equal.
fn are_same(a: &Row, b: &Row) -> bool
    ensures { result ≡ true → row_of a.now ≡ row_of b.now }
{
    if a.bound != b.bound {
        return false;
    }
    are_equal(&a.entries, &b.entries)
}

/// The number of a kept row's tightening, which is kept perhaps from now on; None where it isn't and there are as many as the budget
/// says. Most rows are tight already: such a one isn't looked for.
pub fn keep_tight(
    alloc: Global,
    work: &mut Work,
    n: usize,
    tight: Row,
    budget: u32,
) -> Result<Option<usize>, AllocError>
    requires indexed { IsIndexed work.old }
    requires room { length (work_of work.old).rows ≤ budget }
    ensures indexed { OnOk result (IsIndexed work.new) }
    ensures room { OnOk result (length (work_of work.new).rows ≤ budget) }
    ensures kept { OnOk result (KeptAs (work_of work.old) (row_of tight) (Tightened n) (work_of work.new)) }
    ensures place { IfOk result (λ m. IsPlace budget (row_of tight) (work_of work.new) m) }
{
    if n < work.rows.len() && are_same(&work.rows[n], &tight) {
        return Ok(Some(n));
    }
    keep(alloc, work, tight, Reason::Tightened(n), budget)
}
