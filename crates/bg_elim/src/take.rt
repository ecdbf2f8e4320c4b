//! Rows are taken in: kept, tightened, and paired from then on.
ghost use Rattle.std.specs.Prelude.{◌≡◌, ◌<◌, ◌≤◌, false, IfOk, OnOk, length};
ghost use Rattle.bg_rows.specs.Rows.{row_of, is_false, tightened};
ghost use Rattle.bg_elim.specs.declared.order.Reason.TheVariants.{Given};
ghost use Rattle.bg_elim.specs.declared.work.Taken.TheVariants.{Done};
ghost use Rattle.bg_elim.specs.Work.{work_of, Extends, IsIndexed, StaysSound, IsTaken, IsThere, IsStand, IsJoined};

use crate::columns::{list_row, turn_of};
use crate::keep::{keep, keep_tight};
use crate::order::Reason;
use crate::retire::retire;
use crate::stand::stand;
use crate::work::{Stand, Taken, Tight, Work};
use bg_rows::{Row, copy, is_false, tighten};
use std::alloc::{AllocError, Global};

/// The row tightened, and how that stands to the kept rows.
fn tight_of(alloc: Global, work: &Work, row: &Row) -> Result<Tight, AllocError>
    ensures tight { IfOk result (λ t. row_of t.row ≡ tightened (row_of row.now)) }
    ensures stand { IfOk result (λ t. IsStand (work_of work.now) (row_of t.row) t.stand) }
{
    let row = tighten(alloc, row)?;
    let stand = stand(alloc, work, &row)?;
    Ok(Tight { row, stand })
}

/// A kept row is paired from now on, in the place of one that it implies.
fn join(alloc: Global, work: &mut Work, m: usize, stand: Stand) -> Result<(), AllocError>
    requires indexed { IsIndexed work.old }
    requires there { m < length work.old.rows.items }
    ensures indexed { OnOk result (IsIndexed work.new) }
    ensures joined { OnOk result (IsJoined (work_of work.old) m stand (work_of work.new)) }
{
    let turn = turn_of(work.order.len());
    list_row(alloc, &mut work.columns, &work.rows[m], m, turn, stand)?;
    retire(&mut work.live, stand);
    work.live[m] = true;
    Ok(())
}

/// Keeps a row and its tightening, which is paired from then on in the place of one that it
/// implies. Where a kept row implies it the row is kept alone, and isn't paired.
fn settle(
    alloc: Global,
    work: &mut Work,
    row: Row,
    tight: Tight,
    reason: Reason,
    budget: u32,
) -> Result<Taken, AllocError>
    requires indexed { IsIndexed work.old }
    requires room { length (work_of work.old).rows ≤ budget }
    requires tight { row_of tight.row ≡ tightened (row_of row) }
    requires fine { is_false (row_of row) ≡ false }
    requires stand { IsStand (work_of work.old) (row_of tight.row) tight.stand }
    ensures indexed { OnOk result (IsIndexed work.new) }
    ensures room { OnOk result (length (work_of work.new).rows ≤ budget) }
    ensures extends { OnOk result (Extends (work_of work.old) (work_of work.new)) }
    ensures sound { OnOk result (StaysSound (work_of work.old) (row_of row) reason (work_of work.new)) }
    ensures taken { IfOk result (λ t. IsTaken budget (work_of work.old) (row_of row) (work_of work.new) t) }
    ensures there { IfOk result (λ t. t ≡ Done → IsThere (row_of row) (work_of work.new)) }
{
    let Some(n) = keep(alloc, work, row, reason, budget)? else {
        return Ok(Taken::Full);
    };
    if let Stand::Implied(_) = tight.stand {
        return Ok(Taken::Done);
    }
    let Tight { row: tight, stand } = tight;
    let Some(m) = keep_tight(alloc, work, n, tight, budget)? else {
        return Ok(Taken::Full);
    };
    join(alloc, work, m, stand)?;
    Ok(Taken::Done)
}

/// Takes in a row that follows from kept ones.
pub fn take_derived(
    alloc: Global,
    work: &mut Work,
    row: Row,
    reason: Reason,
    budget: u32,
) -> Result<Taken, AllocError>
    requires indexed { IsIndexed work.old }
    requires room { length (work_of work.old).rows ≤ budget }
    ensures indexed { OnOk result (IsIndexed work.new) }
    ensures room { OnOk result (length (work_of work.new).rows ≤ budget) }
    ensures extends { OnOk result (Extends (work_of work.old) (work_of work.new)) }
    ensures sound { OnOk result (StaysSound (work_of work.old) (row_of row) reason (work_of work.new)) }
    ensures taken { IfOk result (λ t. IsTaken budget (work_of work.old) (row_of row) (work_of work.new) t) }
{
    if is_false(&row) {
        return Ok(Taken::False);
    }
    if row.entries.is_empty() {
        return Ok(Taken::Done);
    }
    let tight = tight_of(alloc, work, &row)?;
    if let Stand::Implied(_) = tight.stand {
        return Ok(Taken::Done);
    }
    settle(alloc, work, row, tight, reason, budget)
}

/// Takes in a given row, which is kept then unless it is always true.
pub fn take_given(
    alloc: Global,
    work: &mut Work,
    given: &Row,
    number: usize,
    budget: u32,
) -> Result<Taken, AllocError>
    requires indexed { IsIndexed work.old }
    requires room { length (work_of work.old).rows ≤ budget }
    ensures indexed { OnOk result (IsIndexed work.new) }
    ensures room { OnOk result (length (work_of work.new).rows ≤ budget) }
    ensures extends { OnOk result (Extends (work_of work.old) (work_of work.new)) }
    ensures sound { OnOk result (StaysSound (work_of work.old) (row_of given.now) (Given number) (work_of work.new)) }
    ensures taken { IfOk result (λ t. IsTaken budget (work_of work.old) (row_of given.now) (work_of work.new) t) }
    ensures there { IfOk result (λ t. t ≡ Done → IsThere (row_of given.now) (work_of work.new)) }
{
    if is_false(given) {
        return Ok(Taken::False);
    }
    if given.entries.is_empty() {
        return Ok(Taken::Done);
    }
    let row = copy(alloc, given)?;
    let tight = tight_of(alloc, work, &row)?;
    settle(alloc, work, row, tight, Reason::Given(number), budget)
}
