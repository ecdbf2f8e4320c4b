//! A round: each worker works in a thread of its own.
ghost use Rattle.std.specs.Prelude.{◌≡◌, ◌<◌, All, length};
ghost use Rattle.bg_rounds.specs.Crews.{Works};

use crate::Checker;
use crate::visiting::work;
use crate::worker::{Round, Worker};
use bg_claims::Gate;
use bg_turns::for_each_mut;
use std::thread::Threads;

/// Each worker works in a thread of its own; all are joined.
pub fn work_all<
    R: Threads + Sync,
    P: Drop + Send,
    V: Drop + Send,
    D: Drop + Send,
    C: Checker<P, V, D> + Sync,
    G: Gate,
>(rt: &R, checker: &C, round: &Round<'_, G>, workers: &mut [Worker<P, V, D>])
    requires stands { C.stands checker.now }
    requires cands { round.now.shared.now.cands ≡ C.cands checker.now }
    requires limit { round.now.claims.now.limit ≡ length round.now.tasks.now }
    requires tasks { All (λ t. t.0 < C.targets checker.now) round.now.tasks.now }
    requires works { All (Works (C.cands checker.now) (C.targets checker.now) (C.cand checker.now) (C.passes checker.now) (C.finds checker.now) round.now.claims.now round.now.shared.now) workers.old }
    ensures { All (Works (C.cands checker.now) (C.targets checker.now) (C.cand checker.now) (C.passes checker.now) (C.finds checker.now) round.now.claims.now round.now.shared.now) workers.new }
{
    for_each_mut(
        rt,
        &|_, w: &mut Worker<P, V, D>|
            requires stands { C.stands checker.now }
            requires cands { round.now.shared.now.cands ≡ C.cands checker.now }
            requires limit { round.now.claims.now.limit ≡ length round.now.tasks.now }
            requires tasks { All (λ t. t.0 < C.targets checker.now) round.now.tasks.now }
            requires works { Works (C.cands checker.now) (C.targets checker.now) (C.cand checker.now) (C.passes checker.now) (C.finds checker.now) round.now.claims.now round.now.shared.now w.now }
            ensures { Works (C.cands checker.entry.now) (C.targets checker.entry.now) (C.cand checker.entry.now) (C.passes checker.entry.now) (C.finds checker.entry.now)
                round.entry.now.claims.now round.entry.now.shared.now w.exit.now }
        { work(checker, round, w) },
        workers,
    );
}
