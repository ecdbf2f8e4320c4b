//! Variables are eliminated from pairs of kept rows.
ghost use Rattle.std.specs.Prelude.{◌≡◌, ◌≤◌, ℕ, true, IfOk, OnOk, length, Some};
ghost use Rattle.bg_elim.specs.Kept.{is_in};
ghost use Rattle.bg_rows.specs.Rows.{RowOf, row_of, Told, eliminated};
ghost use Rattle.bg_rows.specs.Steps.{row_at};
ghost use Rattle.bg_elim.specs.Work.{work_of, Extends, IsIndexed, IsPair, IsPaired, IsRound, PairReady, KeepsSound};

use crate::order::{Further, Reason};
use crate::take::take_derived;
use crate::work::{Paired, Round, Taken, Work};
use bg_rows::{Refused, Row, eliminate};
use std::alloc::{AllocError, Global};

/// Two kept rows without the variable.
fn without(alloc: Global, work: &Work, i: usize, j: usize, x: u32) -> Result<Row, Refused>
    requires { IsPair (work_of work.now) x i j }
    ensures { (u l : RowOf) → row_at (work_of work.now).rows i ≡ Some u → row_at (work_of work.now).rows j ≡ Some l → Told row_of result (eliminated u l x) }
{
    let up = &work.rows[i];
    let low = &work.rows[j];
    eliminate(alloc, up, low, x)
}

/// Takes in what two kept rows leave without the variable.
fn pair(
    alloc: Global,
    work: &mut Work,
    i: usize,
    j: usize,
    x: u32,
    budget: u32,
) -> Result<Paired, AllocError>
    requires indexed { IsIndexed work.old }
    requires room { length (work_of work.old).rows ≤ budget }
    requires pair { IsPair (work_of work.old) x i j }
    ensures indexed { OnOk result (IsIndexed work.new) }
    ensures room { OnOk result (length (work_of work.new).rows ≤ budget) }
    ensures extends { OnOk result (Extends (work_of work.old) (work_of work.new)) }
    ensures sound { OnOk result (KeepsSound (work_of work.old) (work_of work.new)) }
    ensures paired { IfOk result (λ p. IsPaired budget (work_of work.old) x i j (work_of work.new) p) }
{
    let row = match without(alloc, work, i, j, x) {
        Ok(row) => row,
        Err(Refused::Range(e)) => return Ok(Paired::Leaves(e)),
        Err(Refused::Memory) => return Err(AllocError),
    };
    match take_derived(alloc, work, row, Reason::Eliminated(i, j, x), budget)? {
        Taken::Done => Ok(Paired::Ready),
        Taken::False => Ok(Paired::Refutes),
        Taken::Full => Ok(Paired::NoRoom),
    }
}

/// Pairs an upper row of the variable with each of the lower ones.
fn pair_lower(
    alloc: Global,
    work: &mut Work,
    i: usize,
    lows: &[usize],
    x: u32,
    budget: u32,
) -> Result<Round, AllocError>
    requires indexed { IsIndexed work.old }
    requires room { length (work_of work.old).rows ≤ budget }
    requires pairs { (j : ℕ) → is_in j lows.now ≡ true → IsPair (work_of work.old) x i j }
    ensures indexed { OnOk result (IsIndexed work.new) }
    ensures room { OnOk result (length (work_of work.new).rows ≤ budget) }
    ensures extends { OnOk result (Extends (work_of work.old) (work_of work.new)) }
    ensures sound { OnOk result (KeepsSound (work_of work.old) (work_of work.new)) }
    ensures round { IfOk result (λ r. IsRound budget (work_of work.old) x (work_of work.new) ((j : ℕ) → is_in j lows.now ≡ true → PairReady (work_of work.new) x i j) r) }
{
    for j in lows {
        match pair(alloc, work, i, *j, x, budget)? {
            Paired::Ready => {}
            Paired::Refutes => return Ok(Round::RefutedBy(Reason::Eliminated(i, *j, x))),
            Paired::NoRoom => return Ok(Round::Filled),
            Paired::Leaves(operation) => {
                return Ok(Round::Left(Further {
                    first: i,
                    second: *j,
                    variable: x,
                    operation,
                }));
            }
        }
    }
    Ok(Round::Whole)
}

/// Pairs each upper row of the variable with each lower one.
pub fn pair_all(
    alloc: Global,
    work: &mut Work,
    ups: &[usize],
    lows: &[usize],
    x: u32,
    budget: u32,
) -> Result<Round, AllocError>
    requires indexed { IsIndexed work.old }
    requires room { length (work_of work.old).rows ≤ budget }
    requires pairs { (i j : ℕ) → is_in i ups.now ≡ true → is_in j lows.now ≡ true → IsPair (work_of work.old) x i j }
    ensures indexed { OnOk result (IsIndexed work.new) }
    ensures room { OnOk result (length (work_of work.new).rows ≤ budget) }
    ensures extends { OnOk result (Extends (work_of work.old) (work_of work.new)) }
    ensures sound { OnOk result (KeepsSound (work_of work.old) (work_of work.new)) }
    ensures round { IfOk result (λ r. IsRound budget (work_of work.old) x (work_of work.new) ((i : ℕ) → is_in i ups.now ≡ true → (j : ℕ) → is_in j lows.now ≡ true → PairReady (work_of work.new) x i j) r) }
{
    for i in ups {
        match pair_lower(alloc, work, *i, lows, x, budget)? {
            Round::Whole => {}
            Round::RefutedBy(reason) => return Ok(Round::RefutedBy(reason)),
            Round::Filled => return Ok(Round::Filled),
            Round::Left(further) => return Ok(Round::Left(further)),
        }
    }
    Ok(Round::Whole)
}
