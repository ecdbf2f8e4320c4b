//! Workers that run a script in threads. There are two targets a candidate, so two workers may be
//! about to clear the same one.
ghost use Rattle.std.specs.Prelude.{◌≡◌, ℕ, ◌+◌, ◌*◌, ◌<◌, ◌≤◌, All, length, IfOk, IfSome};
ghost use Rattle.bg_claims.specs.Seats.{IsFresh};
ghost use Rattle.bg_shared.specs.Seats.{view, IsOf, IsFirst, IsIdle};
ghost use Rattle.bg_shared.specs.Views.{forking};
ghost use Rattle.bg_trial.specs.Workers.{IsReady, SameStanding, Works};

use crate::sitter::{Sitter, clear_from, look};
use bg_base::CandId;
use bg_claims::{ClaimSeat, Claims};
use bg_shared::{CandSeat, Shared};
use bg_words::CandSet;
use std::alloc::{AllocError, Global};
use std::thread;
use std::thread::Threads;

/// A worker's own data: a seat at the claims, and one at the shared set.
#[derive(Drop)]
pub struct Worker {
    pub claim: ClaimSeat,
    pub sitter: Sitter,
}

/// Whether the script drops this candidate.
pub fn script_drops(c: u32) -> bool {
    c % 3 == 1
}

/// Of a target, the candidate is cleared where a snapshot has it and the script drops it.
pub fn try_target(shared: &Shared, s: &mut Sitter, t: u32)
    requires ready { IsReady shared.now s.old }
    requires target { t < 2 * shared.now.cands }
    requires room { (view s.old.seat).own < 4294967296 }
    ensures ready { IsReady shared.now s.new }
    ensures standing { SameStanding (view s.old.seat) (view s.new.seat) }
    ensures own { (view s.new.seat).own ≤ (view s.old.seat).own + 1 }
{
    look(shared, s);
    let c = t / 2;
    if script_drops(c) {
        let _ = clear_from(shared, s, CandId(c));
    }
}

/// Claims targets until none is left, and tries each.
pub fn work(claims: &Claims, shared: &Shared, w: &mut Worker)
    requires works { Works claims.now shared.now w.old }
    requires room { (view w.old.sitter.seat).own + claims.now.limit < 4294967295 }
    requires same { claims.now.limit ≡ 2 * shared.now.cands }
    ensures works { Works claims.now shared.now w.new }
{
    for _i in 0..2 * u64::from(shared.cands()) {
        let Some(t) = claims.next(&mut w.claim) else {
            return;
        };
        try_target(shared, &mut w.sitter, t);
    }
}

/// Each worker works in a thread of its own.
pub fn round<R: Threads + Sync>(rt: &R, claims: &Claims, shared: &Shared, workers: &mut [Worker])
    requires works { All (Works claims.now shared.now) workers.old }
    requires room { All (λ w. (view w.sitter.seat).own + claims.now.limit < 4294967295) workers.old }
    requires same { claims.now.limit ≡ 2 * shared.now.cands }
    ensures { All (Works claims.now shared.now) workers.new }
{
    thread::for_each_mut(rt, workers, 16, &|_, w| work(claims, shared, w));
}

// A worker with a new seat at the shared set.
fn hire(
    alloc: Global,
    claims: &Claims,
    shared: &Shared,
    first: &mut CandSeat,
    claim: ClaimSeat,
) -> Result<Worker, AllocError>
    requires of { IsOf first.old shared.now × (0 < (view first.old).right) }
    requires first { IsFirst first.old }
    requires claim { IsFresh claims.now claim }
    ensures worker { IfOk result (λ w. Works claims.now shared.now w) }
    ensures new { IfOk result (λ w. (view w.sitter.seat).own ≡ 0) }
    ensures first { IfOk result (λ _. IsOf first.new shared.now × (view first.new ≡ forking (view first.old))) }
{
    let _ = claims;
    let set = CandSet::new(alloc, shared.cands(), false)?;
    let seat = shared.fork(first);
    Ok(Worker {
        claim,
        sitter: Sitter { seat, set },
    })
}

// A worker for each seat at the claims.
fn hire_all(
    alloc: Global,
    claims: &Claims,
    shared: &Shared,
    first: &mut CandSeat,
    mut seats: Vec<ClaimSeat>,
) -> Result<Vec<Worker>, AllocError>
    requires of { IsOf first.old shared.now × (length seats.items ≤ (view first.old).right) }
    requires first { IsFirst first.old × IsIdle first.old }
    requires claims { All (IsFresh claims.now) seats.items }
    ensures workers { IfOk result (λ ws. All (Works claims.now shared.now) ws.items) }
    ensures new { IfOk result (λ ws. All (λ w. (view w.sitter.seat).own ≡ 0) ws.items) }
    ensures first { IfOk result (λ _. IsOf first.new shared.now × IsFirst first.new × IsIdle first.new) }
    ensures parts { IfOk result (λ ws. (view first.new).parts + (view first.new).right + length ws.items ≡ (view first.old).parts + (view first.old).right) }
{
    let mut workers = Vec::new(alloc);
    while let Some(claim) = seats.pop() {
        workers.push(hire(alloc, claims, shared, first, claim)?)?;
    }
    Ok(workers)
}

// The first seat takes in those of all workers.
fn gather(claims: &Claims, shared: &Shared, first: &mut CandSeat, mut workers: Vec<Worker>)
    requires first { IsOf first.old shared.now × IsFirst first.old × IsIdle first.old }
    requires works { All (Works claims.now shared.now) workers.items }
    ensures first { IsOf first.new shared.now × IsFirst first.new × IsIdle first.new }
    ensures parts { (view first.new).parts + (view first.new).right ≡ (view first.old).parts + (view first.old).right + length workers.items }
{
    let _ = claims;
    while let Some(worker) = workers.pop() {
        let Worker { claim: _, sitter } = worker;
        let Sitter { seat, set: _ } = sitter;
        shared.merge(first, seat);
    }
}

/// What is left of `cands` candidates after `count` workers in threads ran the script on them: those
/// that no entry of any worker dropped, and the entries are an ordered history. `finish` says so, and
/// asks that every seat was merged.
pub fn left_by_script<R: Threads + Sync>(
    rt: &R,
    alloc: Global,
    cands: u32,
    count: u32,
) -> Result<CandSet, AllocError>
    requires size { cands ≤ 65536 }
    requires count { (0 < count) × (count ≤ 16) }
    ensures { IfOk result (λ s. length s ≡ cands) }
{
    let mut left = CandSet::new(alloc, cands, false)?;
    let (shared, mut first) = Shared::new(alloc, cands, count + 1)?;
    let (claims, seats) = Claims::new(alloc, 2 * cands, count)?;
    let mut workers = hire_all(alloc, &claims, &shared, &mut first, seats)?;
    round(rt, &claims, &shared, workers.as_mut_slice());
    gather(&claims, &shared, &mut first, workers);
    shared.finish(first, &mut left);
    Ok(left)
}

/// One of the seats that made no claim yet.
pub fn fresh_seat(claims: &Claims, seats: &mut Vec<ClaimSeat>) -> Option<ClaimSeat>
    requires { All (IsFresh claims.now) seats.old.items }
    ensures some { IfSome result (IsFresh claims.now) }
    ensures rest { All (IsFresh claims.now) seats.new.items }
{
    let _ = claims;
    seats.pop()
}
