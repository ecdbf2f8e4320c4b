//! What a worker does in a round.
ghost use Rattle.std.specs.Prelude.{◌≡◌, ◌<◌, All, length};
ghost use Rattle.bg_rounds.specs.Crews.{Employed, RightFound, Works};

use crate::keeper::Keeper;
use crate::seat::{look, remove};
use crate::worker::{Found, Round, Worker};
use crate::{Answer, Checker};
use bg_base::TargetId;
use bg_claims::Gate;
use std::alloc::AllocError;

/// Takes a snapshot, and checks the target under it where it has the target's candidate. A proof is
/// kept; what doesn't pass is removed. Fails for want of memory alone.
pub fn visit<P: Drop, V: Drop, D: Drop, C: Checker<P, V, D>, G: Gate>(
    checker: &C,
    round: &Round<'_, G>,
    number: u32,
    keeper: &mut Keeper<V, D>,
    found: &mut Vec<Found<P>>,
    t: TargetId,
) -> Result<(), AllocError>
    requires stands { C.stands checker.now }
    requires cands { round.now.shared.now.cands ≡ C.cands checker.now }
    requires target { t.0 < C.targets checker.now }
    requires keeper { Employed (C.targets checker.now) (C.cand checker.now) (C.finds checker.now) round.now.shared.now keeper.old }
    requires found { All (RightFound (C.cands checker.now) (C.targets checker.now) (C.passes checker.now)) found.old.items }
    ensures keeper { Employed (C.targets checker.now) (C.cand checker.now) (C.finds checker.now) round.now.shared.now keeper.new }
    ensures found { All (RightFound (C.cands checker.now) (C.targets checker.now) (C.passes checker.now)) found.new.items }
{
    look(round.shared, keeper);
    let cand = checker.cand_of(t);
    if !keeper.set.has(cand) {
        return Ok(());
    }
    round.gate.enter(number, t.0);
    let told = checker.check(round.alloc, &mut keeper.desk, t, &keeper.set)?;
    match told {
        Answer::Passes(kept) => found.push(Found { target: t, kept })?,
        Answer::Drops(finding) => remove(round.shared, keeper, t, cand, finding),
    }
    Ok(())
}

/// Claims tasks until none is left, and visits each. A worker that lacks memory marks itself and ends.
pub fn work<P: Drop, V: Drop, D: Drop, C: Checker<P, V, D>, G: Gate>(
    checker: &C,
    round: &Round<'_, G>,
    w: &mut Worker<P, V, D>,
)
    requires stands { C.stands checker.now }
    requires cands { round.now.shared.now.cands ≡ C.cands checker.now }
    requires limit { round.now.claims.now.limit ≡ length round.now.tasks.now }
    requires tasks { All (λ t. t.0 < C.targets checker.now) round.now.tasks.now }
    requires works { Works (C.cands checker.now) (C.targets checker.now) (C.cand checker.now) (C.passes checker.now) (C.finds checker.now) round.now.claims.now round.now.shared.now w.old }
    ensures { Works (C.cands checker.now) (C.targets checker.now) (C.cand checker.now) (C.passes checker.now) (C.finds checker.now) round.now.claims.now round.now.shared.now w.new }
{
    for _turn in 0..=round.tasks.len() {
        let Some(i) = round.claims.next(&mut w.claim) else {
            return;
        };
        let t = round.tasks[i as usize];
        if visit(checker, round, w.number, &mut w.keeper, &mut w.found, t).is_err() {
            w.lacked = true;
            return;
        }
    }
}
