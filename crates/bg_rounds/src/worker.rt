//! A run, its rounds, and the workers of a round.
use crate::Kept;
use crate::keeper::Keeper;
use bg_base::TargetId;
use bg_claims::{ClaimSeat, Claims, Gate};
use bg_shared::Shared;
use std::alloc::Global;

/// What stands still through all rounds: where memory comes from, the shared set of candidates, and the
/// gate before each check.
#[derive(Drop)]
pub struct Run<'r, G: Gate> {
    pub alloc: Global,
    pub shared: &'r Shared,
    pub gate: &'r G,
}

/// What stands still in one round: that of the run, the tasks, and the claims that give each task's
/// number to one worker.
#[derive(Drop)]
pub struct Round<'r, G: Gate> {
    pub alloc: Global,
    pub shared: &'r Shared,
    pub gate: &'r G,
    pub tasks: &'r [TargetId],
    pub claims: &'r Claims,
}

/// A proof that was found for a target.
#[derive(Drop)]
pub struct Found<P: Drop> {
    pub target: TargetId,
    pub kept: Kept<P>,
}

/// A worker of a round: its number, its seat at the claims of the round, its keeper, the proofs that it
/// found in this round, and whether it ended for want of memory.
#[derive(Drop)]
pub struct Worker<P: Drop, V: Drop, D: Drop> {
    pub number: u32,
    pub claim: ClaimSeat,
    pub keeper: Keeper<V, D>,
    pub found: Vec<Found<P>>,
    pub lacked: bool,
}
