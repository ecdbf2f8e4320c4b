//! The start of a run: the table with its first seat, and room for removals.
ghost use Rattle.std.specs.Prelude.{◌≡◌, ℕ, ◌<◌, ◌≤◌, All, IfOk, OnOk, [], Some, length, slice_get};
ghost use Rattle.bg_shared.specs.Views.{opening_view};
ghost use Rattle.bg_shared.specs.Seats.{view};
ghost use Rattle.bg_rounds.specs.declared.checker.Kept.{Kept};
ghost use Rattle.bg_rounds.specs.Keepers.{Sits, Shows, Stocked};
ghost use Rattle.bg_rounds.specs.Shelves.{Shelved};

use crate::Checker;
use crate::keeper::Keeper;
use crate::shelf::Shelf;
use bg_shared::{CandSeat, Shared};
use bg_words::CandSet;
use std::alloc::{AllocError, Global};

// A keeper for a seat that has drawn nothing.
pub(crate) fn keeper_for<V: Drop, D: Drop>(
    alloc: Global,
    seat: CandSeat,
    set: CandSet,
    desk: D,
) -> Keeper<V, D>
    ensures seat { result.seat ≡ seat }
    ensures set { result.set ≡ set }
    ensures empty { (result.removals.items ≡ []) × (result.spare.items ≡ []) }
{
    Keeper {
        seat,
        set,
        removals: Vec::new(alloc),
        spare: Vec::new(alloc),
        desk,
    }
}

/// The table of `cands` candidates and `seats` seats, and the keeper of the first seat. Fails for want of
/// memory alone.
pub fn open<V: Drop, D: Drop>(
    alloc: Global,
    cands: u32,
    seats: u32,
    desk: D,
) -> Result<(Shared, Keeper<V, D>), AllocError>
    requires { (0 < seats) × (seats ≤ 1024) }
    ensures shared { IfOk result (λ r. (r.0.cands ≡ cands) × (r.0.seats ≡ seats)) }
    ensures sits { IfOk result (λ r. Sits r.0 r.1) }
    ensures view { IfOk result (λ r. view r.1.seat ≡ opening_view cands seats) }
    ensures empty { IfOk result (λ r. (r.1.removals.items ≡ []) × (r.1.spare.items ≡ [])) }
{
    let set = CandSet::new(alloc, cands, false)?;
    let (shared, seat) = Shared::new(alloc, cands, seats)?;
    let keeper = keeper_for(alloc, seat, set, desk);
    Ok((shared, keeper))
}

/// Makes room for a removal of each candidate of the keeper's set. After this no removal needs memory.
/// Fails for want of memory alone.
pub fn stock<V: Drop, D: Drop>(
    alloc: Global,
    shared: &Shared,
    keeper: &mut Keeper<V, D>,
) -> Result<(), AllocError>
    requires sits { Sits shared.now keeper.old }
    requires shows { Shows shared.now keeper.old }
    requires sizes { All (λ s. length s ≡ shared.now.cands) keeper.old.spare.items }
    ensures stocked { OnOk result (Stocked shared.now keeper.new) }
    ensures seat { keeper.new.seat ≡ keeper.old.seat }
    ensures set { keeper.new.set ≡ keeper.old.set }
    ensures removals { keeper.new.removals.items ≡ keeper.old.removals.items }
{
    let count = keeper.set.count();
    keeper.removals.reserve(count as usize)?;
    for _ in 0..count {
        keeper
            .spare
            .push(CandSet::new(alloc, shared.cands(), false)?)?;
    }
    Ok(())
}

/// Places for the kept proofs of `targets` targets, all empty. Fails for want of memory alone.
pub fn empty_shelf<P: Drop>(alloc: Global, targets: u32) -> Result<Shelf<P>, AllocError>
    ensures count { IfOk result (λ s. length s.kept.items ≡ targets) }
    ensures empty { IfOk result (λ s. (t : ℕ) (k : Kept P) → slice_get s.kept.items t ≡ Some (Some k) → ⊥) }
{
    let mut kept = Vec::with_capacity(alloc, targets as usize)?;
    for _ in 0..targets {
        kept.push(None)?;
    }
    Ok(Shelf { kept })
}

/// Places for the kept proofs of the checker's targets, all empty. Fails for want of memory alone.
pub fn new_shelf<P: Drop, V: Drop, D: Drop, C: Checker<P, V, D>>(
    alloc: Global,
    checker: &C,
) -> Result<Shelf<P>, AllocError>
    requires { C.stands checker.now }
    ensures { IfOk result (λ s. Shelved (C.cands checker.now) (C.targets checker.now) (C.passes checker.now) s.kept.items) }
{
    let shelf = empty_shelf(alloc, checker.target_count())?;
    Ok(shelf)
}
