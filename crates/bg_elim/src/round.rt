//! A variable is eliminated.
ghost use Rattle.std.specs.Prelude.{◌≡◌, ◌≤◌, ◌++◌, ◌∷◌, ◌&&◌, [], ℕ, List, false, IfOk, OnOk, length};
ghost use Rattle.bg_elim.specs.Kept.{is_in};
ghost use Rattle.bg_rows.specs.Entries.{coefficient};
ghost use Rattle.bg_rows.specs.Rows.{row_of};
ghost use Rattle.bg_rows.specs.Steps.{row_at};
ghost use Rattle.bg_elim.specs.Work.{work_of, is_live, IsIndexed, KeepsRows, KeepsSound, Placed, has_side, on_side, IsMore, IsSide, IsGone};

use crate::columns::{Turn, numbers_at, turn_of};
use crate::cost::discount_rows;
use crate::pair::pair_all;
use crate::retire::{is_live, take_out};
use crate::work::{Round, Side, Work};
use bg_rows::{Row, coefficient};
use std::alloc::{AllocError, Global};

/// Whether a row has the variable's coefficient on this side of 0.
fn has_side(side: Side, row: &Row, x: u32) -> bool
    ensures { result ≡ has_side side (coefficient x (row_of row.now).entries) }
{
    let c = coefficient(&row.entries, x);
    match side {
        Side::Above => c > 0,
        Side::Below => c < 0,
    }
}

/// Whether a row is live and has the variable's coefficient on this side of 0.
fn is_on(work: &Work, side: Side, x: u32, n: usize) -> bool
    ensures { result ≡ (is_live work.now.live.items n && on_side side x (row_at (work_of work.now).rows n)) }
{
    if n < work.rows.len() {
        is_live(&work.live, n) && has_side(side, &work.rows[n], x)
    } else {
        false
    }
}

/// Those of some rows that are live and have the variable's coefficient on this side of 0, the last ones first.
fn add_back(
    work: &Work,
    side: Side,
    x: u32,
    numbers: &[usize],
    made: &mut Vec<usize>,
) -> Result<(), AllocError>
    ensures { OnOk result (IsMore work.now side x numbers.now made.old.items made.new.items) }
{
    let mut n = numbers.len();
    while n > 0 {
        n -= 1;
        let m = numbers[n];
        if is_on(work, side, x, m) {
            made.push(m)?;
        }
    }
    Ok(())
}

/// The same in their order.
fn add_front(
    work: &Work,
    side: Side,
    x: u32,
    numbers: &[usize],
    made: &mut Vec<usize>,
) -> Result<(), AllocError>
    ensures { OnOk result (IsMore work.now side x numbers.now made.old.items made.new.items) }
{
    for m in numbers {
        if is_on(work, side, x, *m) {
            made.push(*m)?;
        }
    }
    Ok(())
}

/// The live rows with the variable's coefficient on this side of 0: those that came at this turn and at each second one before it, the
/// last ones first, and then the others in their order.
fn side(alloc: Global, work: &Work, side: Side, x: u32) -> Result<Vec<usize>, AllocError>
    requires { IsIndexed work.now }
    ensures { IfOk result (λ ns. IsSide (work_of work.now) side x ns.items) }
{
    let mut made = Vec::new(alloc);
    let Some(p) = work.columns.places.get(&x) else {
        return Ok(made);
    };
    let even = numbers_at(&work.columns.even, *p);
    let odd = numbers_at(&work.columns.odd, *p);
    match turn_of(work.order.len()) {
        Turn::Even => {
            add_back(work, side, x, even, &mut made)?;
            add_front(work, side, x, odd, &mut made)?;
            Ok(made)
        }
        Turn::Odd => {
            add_back(work, side, x, odd, &mut made)?;
            add_front(work, side, x, even, &mut made)?;
            Ok(made)
        }
    }
}

/// Eliminates a variable: each live row that bounds it from above is paired with each that bounds
/// it from below.
pub fn eliminate_one(
    alloc: Global,
    work: &mut Work,
    x: u32,
    budget: u32,
) -> Result<Round, AllocError>
    requires indexed { IsIndexed work.old }
    requires room { length (work_of work.old).rows ≤ budget }
    requires new { is_in x (work_of work.old).order ≡ false }
    requires placed { (all : List ℕ) × Placed all (work_of work.old).order (work_of work.old) }
    ensures indexed { OnOk result (IsIndexed work.new) }
    ensures room { OnOk result (length (work_of work.new).rows ≤ budget) }
    ensures order { OnOk result ((work_of work.new).order ≡ (work_of work.old).order ++ x ∷ []) }
    ensures rows { OnOk result (KeepsRows (work_of work.old) (work_of work.new)) }
    ensures sound { OnOk result (KeepsSound (work_of work.old) (work_of work.new)) }
    ensures gone { IfOk result (λ r. IsGone budget (work_of work.old) x (work_of work.new) r) }
{
    let ups = side(alloc, work, Side::Above, x)?;
    let lows = side(alloc, work, Side::Below, x)?;
    let places = &work.columns.places;
    discount_rows(&mut work.columns.counts, places, &work.rows, &ups);
    discount_rows(&mut work.columns.counts, places, &work.rows, &lows);
    take_out(&mut work.live, &ups);
    take_out(&mut work.live, &lows);
    work.order.push(x)?;
    let round = pair_all(alloc, work, &ups, &lows, x, budget)?;
    Ok(round)
}
