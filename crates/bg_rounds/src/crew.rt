//! The workers' keepers: made before the first round, joined after the last.
ghost use Rattle.std.specs.Prelude.{◌≡◌, ◌+◌, ◌<◌, ◌≤◌, All, IfOk, OnOk, length};
ghost use Rattle.bg_shared.specs.Seats.{view, IsFirst};
ghost use Rattle.bg_rounds.specs.Keepers.{Sits};
ghost use Rattle.bg_rounds.specs.Removals.{RightRemoval};
ghost use Rattle.bg_rounds.specs.Crews.{Employed, IsNew};

use crate::Checker;
use crate::keeper::Keeper;
use crate::opening::{keeper_for, stock};
use crate::seat::look;
use bg_shared::Shared;
use bg_words::CandSet;
use std::alloc::{AllocError, Global};

/// A keeper with a new seat, and room for its removals. Fails for want of memory alone.
pub fn hire<V: Drop, D: Drop>(
    alloc: Global,
    shared: &Shared,
    first: &mut Keeper<V, D>,
    desk: D,
) -> Result<Keeper<V, D>, AllocError>
    requires sits { Sits shared.now first.old × (0 < (view first.old.seat).right) }
    requires first { IsFirst first.old.seat }
    ensures keeper { IfOk result (IsNew shared.now) }
    ensures sits { OnOk result (Sits shared.now first.new) }
    ensures first { OnOk result (IsFirst first.new.seat) }
    ensures parts { OnOk result ((view first.new.seat).parts ≡ (view first.old.seat).parts) }
    ensures right { OnOk result ((view first.new.seat).right + 1 ≡ (view first.old.seat).right) }
    ensures removals { OnOk result (first.new.removals ≡ first.old.removals) }
    ensures spare { OnOk result (first.new.spare ≡ first.old.spare) }
{
    let set = CandSet::new(alloc, shared.cands(), false)?;
    let seat = shared.fork(&mut first.seat);
    let mut keeper = keeper_for(alloc, seat, set, desk);
    look(shared, &mut keeper);
    stock(alloc, shared, &mut keeper)?;
    Ok(keeper)
}

/// `count` keepers with new seats. Fails for want of memory alone.
pub fn hire_all<P: Drop, V: Drop, D: Drop, C: Checker<P, V, D>>(
    alloc: Global,
    checker: &C,
    shared: &Shared,
    first: &mut Keeper<V, D>,
    count: u32,
) -> Result<Vec<Keeper<V, D>>, AllocError>
    requires sits { Sits shared.now first.old × (count ≤ (view first.old.seat).right) }
    requires first { IsFirst first.old.seat }
    ensures keepers { IfOk result (λ ds. All (Employed (C.targets checker.now) (C.cand checker.now) (C.finds checker.now) shared.now) ds.items) }
    ensures count { IfOk result (λ ds. length ds.items ≡ count) }
    ensures sits { OnOk result (Sits shared.now first.new) }
    ensures first { OnOk result (IsFirst first.new.seat) }
    ensures parts { OnOk result ((view first.new.seat).parts ≡ (view first.old.seat).parts) }
    ensures right { OnOk result ((view first.new.seat).right + count ≡ (view first.old.seat).right) }
    ensures removals { OnOk result (first.new.removals ≡ first.old.removals) }
    ensures spare { OnOk result (first.new.spare ≡ first.old.spare) }
{
    let mut keepers = Vec::with_capacity(alloc, count as usize)?;
    for _made in 0..count {
        let desk = checker.desk(alloc)?;
        keepers.push(hire(alloc, shared, first, desk)?)?;
    }
    Ok(keepers)
}

/// The first seat takes in the seat and the removals of a keeper. Fails for want of memory alone.
pub fn join<P: Drop, V: Drop, D: Drop, C: Checker<P, V, D>>(
    checker: &C,
    shared: &Shared,
    first: &mut Keeper<V, D>,
    keeper: Keeper<V, D>,
) -> Result<(), AllocError>
    requires sits { Sits shared.now first.old }
    requires first { IsFirst first.old.seat }
    requires removals { All (RightRemoval (C.targets checker.now) (C.cand checker.now) (C.finds checker.now)) first.old.removals.items }
    requires keeper { Employed (C.targets checker.now) (C.cand checker.now) (C.finds checker.now) shared.now keeper }
    ensures sits { OnOk result (Sits shared.now first.new) }
    ensures first { OnOk result (IsFirst first.new.seat) }
    ensures removals { OnOk result (All (RightRemoval (C.targets checker.now) (C.cand checker.now) (C.finds checker.now)) first.new.removals.items) }
    ensures parts { OnOk result ((view first.new.seat).parts ≡ (view first.old.seat).parts + 1) }
    ensures right { OnOk result ((view first.new.seat).right ≡ (view first.old.seat).right) }
    ensures spare { OnOk result (first.new.spare ≡ first.old.spare) }
{
    let _ = checker;
    let Keeper {
        seat,
        set: _,
        mut removals,
        spare: _,
        desk: _,
    } = keeper;
    shared.merge(&mut first.seat, seat);
    first.removals.append(&mut removals)?;
    Ok(())
}

/// The first seat takes in the seats and the removals of all keepers. Fails for want of memory alone.
pub fn join_all<P: Drop, V: Drop, D: Drop, C: Checker<P, V, D>>(
    checker: &C,
    shared: &Shared,
    first: &mut Keeper<V, D>,
    mut keepers: Vec<Keeper<V, D>>,
) -> Result<(), AllocError>
    requires sits { Sits shared.now first.old }
    requires first { IsFirst first.old.seat }
    requires removals { All (RightRemoval (C.targets checker.now) (C.cand checker.now) (C.finds checker.now)) first.old.removals.items }
    requires keepers { All (Employed (C.targets checker.now) (C.cand checker.now) (C.finds checker.now) shared.now) keepers.items }
    ensures sits { OnOk result (Sits shared.now first.new) }
    ensures first { OnOk result (IsFirst first.new.seat) }
    ensures removals { OnOk result (All (RightRemoval (C.targets checker.now) (C.cand checker.now) (C.finds checker.now)) first.new.removals.items) }
    ensures parts { OnOk result ((view first.new.seat).parts + (view first.new.seat).right ≡ (view first.old.seat).parts + (view first.old.seat).right + length keepers.items) }
    ensures spare { OnOk result (first.new.spare ≡ first.old.spare) }
{
    while let Some(keeper) = keepers.pop() {
        join(checker, shared, first, keeper)?;
    }
    Ok(())
}
