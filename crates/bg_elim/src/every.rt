//! Variables are eliminated, one after the other.
ghost use Rattle.std.specs.Prelude.{◌≡◌, ◌≤◌, [], ℕ, List, true, IfOk, OnOk, length};
ghost use Rattle.bg_rows.specs.Rows.{RowOf};
ghost use Rattle.bg_elim.specs.Kept.{no_twice};
ghost use Rattle.bg_elim.specs.Work.{work_of, IsIndexed, KeepsRows, KeepsSound, Placed, EndsAs, IsOver};

use crate::round::eliminate_one;
use crate::variables::choose;
use crate::work::{Round, Work};
use std::alloc::{AllocError, Global};

/// The numbers below one.
fn places(alloc: Global, n: usize) -> Result<Vec<usize>, AllocError>
    ensures { IfOk result (λ made. length made.items ≡ n) }
{
    let mut made = Vec::with_capacity(alloc, n)?;
    for i in 0..n {
        made.push(i)?;
    }
    Ok(made)
}

/// Eliminates every variable, each time one that costs least.
pub fn eliminate_all(
    alloc: Global,
    work: &mut Work,
    variables: &[u32],
    budget: u32,
) -> Result<Round, AllocError>
    requires indexed { IsIndexed work.old }
    requires room { length (work_of work.old).rows ≤ budget }
    requires order { (work_of work.old).order ≡ [] }
    requires once { no_twice variables.now ≡ true }
    requires placed { Placed variables.now [] (work_of work.old) }
    ensures indexed { OnOk result (IsIndexed work.new) }
    ensures rows { OnOk result (KeepsRows (work_of work.old) (work_of work.new)) }
    ensures sound { OnOk result (KeepsSound (work_of work.old) (work_of work.new)) }
    ensures ends { IfOk result (λ r. (given : List RowOf) → EndsAs given budget (work_of work.new) (IsOver variables.now (work_of work.new)) r) }
{
    let mut rest = variables.to_vec(alloc)?;
    let mut places = places(alloc, rest.len())?;
    'every: while !rest.is_empty() {
        let i = choose(work, &places);
        places.remove(i);
        let x = rest.remove(i);
        match eliminate_one(alloc, work, x, budget)? {
            Round::Whole => {}
            round => return Ok(round),
        }
    }
    Ok(Round::Whole)
}
