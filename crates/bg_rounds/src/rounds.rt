//! Rounds: tasks, workers, and what they found.
ghost use Rattle.std.specs.Prelude.{◌≡◌, ◌<◌, ◌≤◌, ◌↔◌, All, IsTrue, IfOk, length};
ghost use Rattle.bg_claims.specs.Seats.{IsFresh};
ghost use Rattle.bg_rounds.specs.Shelves.{Shelved};
ghost use Rattle.bg_rounds.specs.Crews.{Employed, RightFound, Works, IsDue};

use crate::Checker;
use crate::keeper::Keeper;
use crate::shelf::{Shelf, is_held, put};
use crate::worker::{Found, Round, Worker};
use bg_base::TargetId;
use bg_claims::{ClaimSeat, Gate};
use bg_words::CandSet;
use std::alloc::{AllocError, Global};

// Whether a round has this target: its candidate is there, and no kept proof uses candidates that are
// there alone.
fn is_due<P: Drop, V: Drop, D: Drop, C: Checker<P, V, D>>(
    checker: &C,
    set: &CandSet,
    shelf: &Shelf<P>,
    t: TargetId,
) -> bool
    requires stands { C.stands checker.now }
    requires target { t.0 < C.targets checker.now }
    requires set { length set.now ≡ C.cands checker.now }
    requires shelved { Shelved (C.cands checker.now) (C.targets checker.now) (C.passes checker.now) shelf.now.kept.items }
    ensures { IsTrue result ↔ IsDue (C.cand checker.now) shelf.now.kept.items set.now t }
{
    set.has(checker.cand_of(t)) && !is_held(shelf, t, set)
}

/// The targets of a round: those whose candidate is there, and which have no kept proof that uses
/// candidates that are there alone. Fails for want of memory alone.
pub fn tasks_of<P: Drop, V: Drop, D: Drop, C: Checker<P, V, D>>(
    alloc: Global,
    checker: &C,
    set: &CandSet,
    shelf: &Shelf<P>,
) -> Result<Vec<TargetId>, AllocError>
    requires stands { C.stands checker.now }
    requires set { length set.now ≡ C.cands checker.now }
    requires shelved { Shelved (C.cands checker.now) (C.targets checker.now) (C.passes checker.now) shelf.now.kept.items }
    ensures targets { IfOk result (λ ts. All (λ t. t.0 < C.targets checker.now) ts.items) }
    ensures due { IfOk result (λ ts. All (IsDue (C.cand checker.now) shelf.now.kept.items set.now) ts.items) }
    ensures few { IfOk result (λ ts. length ts.items < 4294967296) }
{
    let mut tasks = Vec::new(alloc);
    for t in 0..checker.target_count() {
        if !is_due(checker, set, shelf, TargetId(t)) {
            continue;
        }
        tasks.push(TargetId(t))?;
    }
    Ok(tasks)
}

// Each found proof is from now on its target's kept one.
pub(crate) fn shelve<P: Drop, V: Drop, D: Drop, C: Checker<P, V, D>>(
    checker: &C,
    shelf: &mut Shelf<P>,
    mut found: Vec<Found<P>>,
)
    requires found { All (RightFound (C.cands checker.now) (C.targets checker.now) (C.passes checker.now)) found.items }
    requires shelved { Shelved (C.cands checker.now) (C.targets checker.now) (C.passes checker.now) shelf.old.kept.items }
    ensures { Shelved (C.cands checker.now) (C.targets checker.now) (C.passes checker.now) shelf.new.kept.items }
{
    let _ = checker;
    while let Some(one) = found.pop() {
        let Found { target, kept } = one;
        put(shelf, target, kept);
    }
}

// A worker for each keeper, with a seat at the claims.
pub(crate) fn man<P: Drop, V: Drop, D: Drop, C: Checker<P, V, D>, G: Gate>(
    checker: &C,
    round: &Round<'_, G>,
    mut keepers: Vec<Keeper<V, D>>,
    mut seats: Vec<ClaimSeat>,
) -> Result<Vec<Worker<P, V, D>>, AllocError>
    requires keepers { All (Employed (C.targets checker.now) (C.cand checker.now) (C.finds checker.now) round.now.shared.now) keepers.items }
    requires seats { All (IsFresh round.now.claims.now) seats.items }
    requires count { length seats.items ≡ length keepers.items }
    requires few { length keepers.items ≤ 16 }
    ensures workers { IfOk result (λ ws. All
        (Works (C.cands checker.now) (C.targets checker.now) (C.cand checker.now) (C.passes checker.now) (C.finds checker.now) round.now.claims.now round.now.shared.now) ws.items) }
    ensures count { IfOk result (λ ws. length ws.items ≡ length keepers.items) }
{
    let _ = checker;
    let mut workers = Vec::with_capacity(round.alloc, keepers.len())?;
    while let Some(keeper) = keepers.pop() {
        let Some(claim) = seats.pop() else {
            unreachable!()
        };
        workers.push(Worker {
            number: workers.len() as u32,
            claim,
            keeper,
            found: Vec::new(round.alloc),
            lacked: false,
        })?;
    }
    Ok(workers)
}

// The keepers of the workers, whose found proofs are shelved. Fails where one of them lacked memory.
pub(crate) fn collect<P: Drop, V: Drop, D: Drop, C: Checker<P, V, D>, G: Gate>(
    checker: &C,
    round: &Round<'_, G>,
    shelf: &mut Shelf<P>,
    mut workers: Vec<Worker<P, V, D>>,
) -> Result<Vec<Keeper<V, D>>, AllocError>
    requires workers { All
        (Works (C.cands checker.now) (C.targets checker.now) (C.cand checker.now) (C.passes checker.now) (C.finds checker.now) round.now.claims.now round.now.shared.now) workers.items }
    requires shelved { Shelved (C.cands checker.now) (C.targets checker.now) (C.passes checker.now) shelf.old.kept.items }
    ensures keepers { IfOk result (λ ds. All (Employed (C.targets checker.now) (C.cand checker.now) (C.finds checker.now) round.now.shared.now) ds.items) }
    ensures count { IfOk result (λ ds. length ds.items ≡ length workers.items) }
    ensures shelved { Shelved (C.cands checker.now) (C.targets checker.now) (C.passes checker.now) shelf.new.kept.items }
{
    let mut keepers = Vec::with_capacity(round.alloc, workers.len())?;
    while let Some(worker) = workers.pop() {
        let Worker {
            number: _,
            claim: _,
            keeper,
            found,
            lacked,
        } = worker;
        if lacked {
            return Err(AllocError);
        }
        shelve(checker, shelf, found);
        keepers.push(keeper)?;
    }
    Ok(keepers)
}
