//! A seat with its last snapshot.
ghost use Rattle.std.specs.Prelude.{◌≡◌, ◌+◌, ◌<◌, ◌≤◌, IfOk, IfSome, length};
ghost use Rattle.bg_shared.specs.Seats.{view, IsOf, IsIdle};
ghost use Rattle.bg_trial.specs.Workers.{IsReady, HasShot, SameStanding};

use bg_base::CandId;
use bg_shared::{CandSeat, Cleared, Shared};
use bg_words::CandSet;
use std::alloc::{AllocError, Global};

/// A seat at the shared set, and the last snapshot that it took.
#[derive(Drop)]
pub struct Sitter {
    pub seat: CandSeat,
    pub set: CandSet,
}

/// A snapshot is taken.
pub fn look(shared: &Shared, s: &mut Sitter)
    requires { IsReady shared.now s.old }
    ensures ready { IsReady shared.now s.new }
    ensures shot { 0 < shared.now.cands → HasShot shared.now s.new }
    ensures standing { SameStanding (view s.old.seat) (view s.new.seat) }
    ensures own { (view s.new.seat).own ≡ (view s.old.seat).own }
{
    shared.snapshot_into(&mut s.seat, &mut s.set);
}

/// The candidate is drawn for and cleared, where the snapshot has it.
pub fn clear_from(shared: &Shared, s: &mut Sitter, c: CandId) -> Option<Cleared>
    requires ready { IsReady shared.now s.old }
    requires shot { HasShot shared.now s.old }
    requires cand { c.0 < shared.now.cands }
    requires room { (view s.old.seat).own < 4294967296 }
    ensures ready { IsReady shared.now s.new }
    ensures standing { SameStanding (view s.old.seat) (view s.new.seat) }
    ensures own { (view s.new.seat).own ≤ (view s.old.seat).own + 1 }
{
    if !s.set.has(c) {
        return None;
    }
    shared.draw(&mut s.seat, c, &s.set);
    Some(shared.clear(&mut s.seat))
}
