//! Inference with workers in threads.
ghost use Rattle.std.specs.Prelude.{◌≡◌, ◌+◌, ◌<◌, ◌≤◌, All, IfOk, OnOk, length};
ghost use Rattle.bg_shared.specs.Seats.{view, IsFirst};
ghost use Rattle.bg_rounds.specs.Keepers.{Sits};
ghost use Rattle.bg_rounds.specs.Shelves.{Shelved};
ghost use Rattle.bg_rounds.specs.Crews.{Employed, SameSeat};
ghost use Rattle.bg_rounds.specs.Outcomes.{TrueOutcome};

use crate::closing::close;
use crate::crew::{hire_all, join_all};
use crate::ending::finish;
use crate::keeper::Keeper;
use crate::opening::{new_shelf, open, stock};
use crate::rounds::{collect, man, tasks_of};
use crate::seat::look;
use crate::shelf::Shelf;
use crate::threads::work_all;
use crate::worker::{Round, Run};
use crate::{Checker, Outcome};
use bg_base::TargetId;
use bg_claims::{Claims, Gate};
use std::alloc::{AllocError, Global};
use std::thread::Threads;

// One round of these tasks, with a worker at each keeper.
fn one_round<
    R: Threads + Sync,
    P: Drop + Send,
    V: Drop + Send,
    D: Drop + Send,
    C: Checker<P, V, D> + Sync,
    G: Gate,
>(
    rt: &R,
    checker: &C,
    run: &Run<'_, G>,
    tasks: &[TargetId],
    keepers: Vec<Keeper<V, D>>,
    shelf: &mut Shelf<P>,
) -> Result<Vec<Keeper<V, D>>, AllocError>
    requires stands { C.stands checker.now }
    requires cands { run.now.shared.now.cands ≡ C.cands checker.now }
    requires tasks { All (λ t. t.0 < C.targets checker.now) tasks.now }
    requires few_tasks { length tasks.now < 4294967296 }
    requires keepers { All (Employed (C.targets checker.now) (C.cand checker.now) (C.finds checker.now) run.now.shared.now) keepers.items }
    requires few { (0 < length keepers.items) × (length keepers.items ≤ 16) }
    requires shelved { Shelved (C.cands checker.now) (C.targets checker.now) (C.passes checker.now) shelf.old.kept.items }
    ensures keepers { IfOk result (λ ds. All (Employed (C.targets checker.now) (C.cand checker.now) (C.finds checker.now) run.now.shared.now) ds.items) }
    ensures count { IfOk result (λ ds. length ds.items ≡ length keepers.items) }
    ensures shelved { Shelved (C.cands checker.now) (C.targets checker.now) (C.passes checker.now) shelf.new.kept.items }
{
    let (claims, seats) = Claims::new(run.alloc, tasks.len() as u32, keepers.len() as u32)?;
    let round = Round {
        alloc: run.alloc,
        shared: run.shared,
        gate: run.gate,
        tasks,
        claims: &claims,
    };
    let mut workers = man(checker, &round, keepers, seats)?;
    work_all(rt, checker, &round, workers.as_mut_slice());
    collect(checker, &round, shelf, workers)
}

// Rounds until one has no tasks, and no more than one for each candidate and one more.
fn rounds<
    R: Threads + Sync,
    P: Drop + Send,
    V: Drop + Send,
    D: Drop + Send,
    C: Checker<P, V, D> + Sync,
    G: Gate,
>(
    rt: &R,
    checker: &C,
    run: &Run<'_, G>,
    first: &mut Keeper<V, D>,
    keepers: Vec<Keeper<V, D>>,
    shelf: &mut Shelf<P>,
) -> Result<Vec<Keeper<V, D>>, AllocError>
    requires stands { C.stands checker.now }
    requires cands { run.now.shared.now.cands ≡ C.cands checker.now }
    requires sits { Sits run.now.shared.now first.old }
    requires keepers { All (Employed (C.targets checker.now) (C.cand checker.now) (C.finds checker.now) run.now.shared.now) keepers.items }
    requires few { (0 < length keepers.items) × (length keepers.items ≤ 16) }
    requires shelved { Shelved (C.cands checker.now) (C.targets checker.now) (C.passes checker.now) shelf.old.kept.items }
    ensures keepers { IfOk result (λ ds. All (Employed (C.targets checker.now) (C.cand checker.now) (C.finds checker.now) run.now.shared.now) ds.items) }
    ensures count { IfOk result (λ ds. length ds.items ≡ length keepers.items) }
    ensures shelved { OnOk result (Shelved (C.cands checker.now) (C.targets checker.now) (C.passes checker.now) shelf.new.kept.items) }
    ensures sits { OnOk result (Sits run.now.shared.now first.new) }
    ensures same { OnOk result (SameSeat first.old first.new) }
{
    let most = u64::from(run.shared.cands()) + 1;
    let mut keepers = keepers;
    for _round in 0..most {
        look(run.shared, first);
        let tasks = tasks_of(run.alloc, checker, &first.set, shelf)?;
        if tasks.is_empty() {
            return Ok(keepers);
        }
        keepers = one_round(rt, checker, run, tasks.as_slice(), keepers, shelf)?;
    }
    Ok(keepers)
}

/// The greatest set that the checker's answers leave, with `workers` workers in threads. In a round each
/// worker claims a target, takes a snapshot, and checks the target under it where it has the target's
/// candidate; what doesn't pass is drawn for and cleared. The first round has all targets, a later one
/// those whose kept proof uses a candidate that went. Then all seats are joined, and the closing sweeps
/// see to it that each target of a candidate that is left has a kept proof. Fails for want of memory alone.
pub fn infer<
    R: Threads + Sync,
    P: Drop + Send,
    V: Drop + Send,
    D: Drop + Send,
    C: Checker<P, V, D> + Sync,
    G: Gate,
>(rt: &R, alloc: Global, checker: &C, gate: &G, workers: u32) -> Result<Outcome<P, V>, AllocError>
    requires stands { C.stands checker.now }
    requires workers { (0 < workers) × (workers ≤ 16) }
    ensures { IfOk result (TrueOutcome (C.cands checker.now) (C.targets checker.now) (C.cand checker.now) (C.passes checker.now) (C.finds checker.now)) }
{
    let desk = checker.desk(alloc)?;
    let (shared, mut first) = open(alloc, checker.cand_count(), workers + 1, desk)?;
    let mut shelf = new_shelf(alloc, checker)?;
    let keepers = hire_all(alloc, checker, &shared, &mut first, workers)?;
    let run = Run {
        alloc,
        shared: &shared,
        gate,
    };
    let keepers = rounds(rt, checker, &run, &mut first, keepers, &mut shelf)?;
    join_all(checker, &shared, &mut first, keepers)?;
    look(&shared, &mut first);
    stock(alloc, &shared, &mut first)?;
    close(alloc, checker, &shared, &mut first, &mut shelf)?;
    Ok(finish(checker, shared, first, shelf))
}
