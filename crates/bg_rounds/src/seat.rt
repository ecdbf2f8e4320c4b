//! The steps of a worker at the shared set.
ghost use Rattle.std.specs.Prelude.{◌≡◌, ◌<◌, true};
ghost use Rattle.bg_words.specs.Sets.{has};
ghost use Rattle.bg_rounds.specs.Removals.{IsOneMore};
ghost use Rattle.bg_rounds.specs.Keepers.{Sits, Shows, Stocked, GoesOn, gone};

use crate::keeper::Keeper;
use crate::{Finding, Removal};
use bg_base::{CandId, TargetId};
use bg_shared::Shared;

/// A snapshot is taken.
pub fn look<V: Drop, D: Drop>(shared: &Shared, keeper: &mut Keeper<V, D>)
    requires { Sits shared.now keeper.old }
    ensures sits { Sits shared.now keeper.new }
    ensures shows { Shows shared.now keeper.new }
    ensures stocked { Stocked shared.now keeper.old → Stocked shared.now keeper.new }
    ensures on { GoesOn shared.now.cands keeper.old keeper.new }
    ensures removals { keeper.new.removals ≡ keeper.old.removals }
    ensures spare { keeper.new.spare ≡ keeper.old.spare }
{
    shared.snapshot_into(&mut keeper.seat, &mut keeper.set);
}

/// The candidate of a target that didn't pass under the snapshot is drawn for and cleared. Room for
/// it was made before, so this can't fail.
pub fn remove<V: Drop, D: Drop>(
    shared: &Shared,
    keeper: &mut Keeper<V, D>,
    target: TargetId,
    cand: CandId,
    finding: Finding<V>,
)
    requires sits { Sits shared.now keeper.old }
    requires shows { Shows shared.now keeper.old }
    requires stocked { Stocked shared.now keeper.old }
    requires cand { cand.0 < shared.now.cands }
    requires inside { has keeper.old.set cand.0 ≡ true }
    ensures sits { Sits shared.now keeper.new }
    ensures stocked { Stocked shared.now keeper.new }
    ensures on { GoesOn shared.now.cands keeper.old keeper.new }
    ensures gone { has (gone keeper.new) cand.0 ≡ true }
    ensures removal { IsOneMore keeper.old.removals.items keeper.new.removals.items target cand keeper.old.set finding }
{
    let Finding { unknown, told } = finding;
    shared.draw(&mut keeper.seat, cand, &keeper.set);
    let cleared = shared.clear(&mut keeper.seat);
    let Some(mut snapshot) = keeper.spare.pop() else {
        unreachable!()
    };
    snapshot.copy_from(&keeper.set);
    keeper.removals.push_reserved(Removal {
        number: cleared.number,
        cand,
        target,
        snapshot,
        was_there: cleared.was_there,
        unknown,
        told,
    });
}
