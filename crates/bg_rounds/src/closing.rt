//! The closing sweeps, in which one seat looks at each target.
ghost use Rattle.std.specs.Prelude.{◌≡◌, ℕ, ◌<◌, All, OnOk, slice_get};
ghost use Rattle.bg_rounds.specs.Keepers.{Sits, Shows, Stocked, GoesOn, gone};
ghost use Rattle.bg_rounds.specs.Shelves.{Shelved};
ghost use Rattle.bg_rounds.specs.Removals.{RightRemoval};
ghost use Rattle.bg_rounds.specs.Closing.{IsSettled, IsClosed};

use crate::keeper::Keeper;
use crate::seat::{look, remove};
use crate::shelf::{Shelf, is_held, put};
use crate::{Answer, Checker};
use bg_base::TargetId;
use bg_shared::Shared;
use std::alloc::{AllocError, Global};

/// Looks at a target, and checks it where its candidate is there and it has no kept proof that uses
/// candidates that are there alone. What doesn't pass is removed. Fails for want of memory alone.
pub fn settle<P: Drop, V: Drop, D: Drop, C: Checker<P, V, D>>(
    alloc: Global,
    checker: &C,
    shared: &Shared,
    keeper: &mut Keeper<V, D>,
    shelf: &mut Shelf<P>,
    t: TargetId,
) -> Result<(), AllocError>
    requires stands { C.stands checker.now }
    requires cands { shared.now.cands ≡ C.cands checker.now }
    requires target { t.0 < C.targets checker.now }
    requires sits { Sits shared.now keeper.old }
    requires stocked { Stocked shared.now keeper.old }
    requires right { All (RightRemoval (C.targets checker.now) (C.cand checker.now) (C.finds checker.now)) keeper.old.removals.items }
    requires shelved { Shelved (C.cands checker.now) (C.targets checker.now) (C.passes checker.now) shelf.old.kept.items }
    ensures sits { OnOk result (Sits shared.now keeper.new) }
    ensures stocked { OnOk result (Stocked shared.now keeper.new) }
    ensures right { OnOk result (All (RightRemoval (C.targets checker.now) (C.cand checker.now) (C.finds checker.now)) keeper.new.removals.items) }
    ensures shelved { OnOk result (Shelved (C.cands checker.now) (C.targets checker.now) (C.passes checker.now) shelf.new.kept.items) }
    ensures on { OnOk result (GoesOn shared.now.cands keeper.old keeper.new) }
    ensures settled { OnOk result (IsSettled shared.now.cands (C.cand checker.now) (gone keeper.old) (gone keeper.new) shelf.new.kept.items t.0) }
    ensures others { OnOk result ((u : ℕ) → (u ≡ t.0 → ⊥) → slice_get shelf.new.kept.items u ≡ slice_get shelf.old.kept.items u) }
{
    look(shared, keeper);
    let cand = checker.cand_of(t);
    if !keeper.set.has(cand) {
        return Ok(());
    }
    if is_held(shelf, t, &keeper.set) {
        return Ok(());
    }
    let told = checker.check(alloc, &mut keeper.desk, t, &keeper.set)?;
    match told {
        Answer::Passes(kept) => put(shelf, t, kept),
        Answer::Drops(finding) => remove(shared, keeper, t, cand, finding),
    }
    Ok(())
}

/// Looks at each target, and takes a last snapshot. Fails for want of memory alone.
pub fn sweep<P: Drop, V: Drop, D: Drop, C: Checker<P, V, D>>(
    alloc: Global,
    checker: &C,
    shared: &Shared,
    keeper: &mut Keeper<V, D>,
    shelf: &mut Shelf<P>,
) -> Result<(), AllocError>
    requires stands { C.stands checker.now }
    requires cands { shared.now.cands ≡ C.cands checker.now }
    requires sits { Sits shared.now keeper.old }
    requires stocked { Stocked shared.now keeper.old }
    requires right { All (RightRemoval (C.targets checker.now) (C.cand checker.now) (C.finds checker.now)) keeper.old.removals.items }
    requires shelved { Shelved (C.cands checker.now) (C.targets checker.now) (C.passes checker.now) shelf.old.kept.items }
    ensures sits { OnOk result (Sits shared.now keeper.new) }
    ensures shows { OnOk result (Shows shared.now keeper.new) }
    ensures stocked { OnOk result (Stocked shared.now keeper.new) }
    ensures right { OnOk result (All (RightRemoval (C.targets checker.now) (C.cand checker.now) (C.finds checker.now)) keeper.new.removals.items) }
    ensures shelved { OnOk result (Shelved (C.cands checker.now) (C.targets checker.now) (C.passes checker.now) shelf.new.kept.items) }
    ensures on { OnOk result (GoesOn shared.now.cands keeper.old keeper.new) }
    ensures settled { OnOk result ((t : ℕ) → t < C.targets checker.now → IsSettled shared.now.cands (C.cand checker.now) (gone keeper.old) (gone keeper.new) shelf.new.kept.items t) }
{
    for t in 0..checker.target_count() {
        settle(alloc, checker, shared, keeper, shelf, TargetId(t))?;
    }
    look(shared, keeper);
    Ok(())
}

/// Sweeps until a sweep's last snapshot has as many candidates as its first. Then each target of a
/// candidate that is there has a kept proof which uses candidates that are there alone. There are at most
/// as many sweeps as candidates, and one more. Fails for want of memory alone.
pub fn close<P: Drop, V: Drop, D: Drop, C: Checker<P, V, D>>(
    alloc: Global,
    checker: &C,
    shared: &Shared,
    keeper: &mut Keeper<V, D>,
    shelf: &mut Shelf<P>,
) -> Result<(), AllocError>
    requires stands { C.stands checker.now }
    requires cands { shared.now.cands ≡ C.cands checker.now }
    requires sits { Sits shared.now keeper.old }
    requires stocked { Stocked shared.now keeper.old }
    requires right { All (RightRemoval (C.targets checker.now) (C.cand checker.now) (C.finds checker.now)) keeper.old.removals.items }
    requires shelved { Shelved (C.cands checker.now) (C.targets checker.now) (C.passes checker.now) shelf.old.kept.items }
    ensures sits { OnOk result (Sits shared.now keeper.new) }
    ensures shows { OnOk result (Shows shared.now keeper.new) }
    ensures right { OnOk result (All (RightRemoval (C.targets checker.now) (C.cand checker.now) (C.finds checker.now)) keeper.new.removals.items) }
    ensures shelved { OnOk result (Shelved (C.cands checker.now) (C.targets checker.now) (C.passes checker.now) shelf.new.kept.items) }
    ensures on { OnOk result (GoesOn shared.now.cands keeper.old keeper.new) }
    ensures closed { OnOk result (IsClosed (C.targets checker.now) (C.cand checker.now) shelf.new.kept.items keeper.new.set) }
{
    look(shared, keeper);
    let mut before = keeper.set.count();
    loop {
        sweep(alloc, checker, shared, keeper, shelf)?;
        let after = keeper.set.count();
        if after == before {
            return Ok(());
        }
        before = after;
    }
}
