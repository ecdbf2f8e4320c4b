//! The end of a run.
ghost use Rattle.std.specs.Prelude.{◌≡◌, ◌+◌, All};
ghost use Rattle.bg_shared.specs.Seats.{view, IsFirst};
ghost use Rattle.bg_rounds.specs.Keepers.{Sits, Shows};
ghost use Rattle.bg_rounds.specs.Shelves.{Shelved};
ghost use Rattle.bg_rounds.specs.Removals.{RightRemoval};
ghost use Rattle.bg_rounds.specs.Closing.{IsClosed};
ghost use Rattle.bg_rounds.specs.Outcomes.{TrueOutcome};

use crate::keeper::Keeper;
use crate::shelf::Shelf;
use crate::{Checker, Outcome};
use bg_shared::Shared;

/// The outcome, once every seat was joined into the first and the last snapshot is closed.
pub fn finish<P: Drop, V: Drop, D: Drop, C: Checker<P, V, D>>(
    checker: &C,
    shared: Shared,
    keeper: Keeper<V, D>,
    shelf: Shelf<P>,
) -> Outcome<P, V>
    requires cands { shared.cands ≡ C.cands checker.now }
    requires sits { Sits shared keeper }
    requires shows { Shows shared keeper }
    requires right { All (RightRemoval (C.targets checker.now) (C.cand checker.now) (C.finds checker.now)) keeper.removals.items }
    requires shelved { Shelved (C.cands checker.now) (C.targets checker.now) (C.passes checker.now) shelf.kept.items }
    requires closed { IsClosed (C.targets checker.now) (C.cand checker.now) shelf.kept.items keeper.set }
    requires first { IsFirst keeper.seat }
    requires all { (view keeper.seat).parts + (view keeper.seat).right ≡ shared.seats }
    ensures { TrueOutcome (C.cands checker.now) (C.targets checker.now) (C.cand checker.now) (C.passes checker.now) (C.finds checker.now) result }
{
    let _ = checker;
    let Keeper {
        seat,
        mut set,
        removals,
        spare: _,
        desk: _,
    } = keeper;
    let Shelf { kept } = shelf;
    shared.finish(seat, &mut set);
    Outcome {
        retained: set,
        removals,
        kept,
    }
}
