//! The worked examples.
ghost use Rattle.std.specs.Prelude.{◌≡◌, ◌+◌, ◌<◌, ◌≤◌, ◌^◌, IfOk, length};
ghost use Rattle.bg_shared.specs.Seats.{view, IsFirst};
ghost use Rattle.bg_trial.specs.Workers.{IsReady, SameStanding};

use crate::sitter::{Sitter, clear_from, look};
use bg_base::CandId;
use bg_shared::{Cleared, Shared};
use bg_words::CandSet;
use std::alloc::{AllocError, Global};

/// A table of three seats, all of them made.
#[derive(Drop)]
pub struct Three {
    pub shared: Shared,
    pub first: Sitter,
    pub second: Sitter,
    pub third: Sitter,
}

// The three sets are made before the seats.
fn open_three(alloc: Global, n: u32) -> Result<Three, AllocError>
    ensures shared { IfOk result (λ r. (r.shared.cands ≡ n) × (r.shared.seats ≡ 3)) }
    ensures first { IfOk result (λ r. IsReady r.shared r.first × IsFirst r.first.seat × ((view r.first.seat).parts ≡ 1) × ((view r.first.seat).right ≡ 0) × ((view r.first.seat).own ≡ 0)) }
    ensures second { IfOk result (λ r. IsReady r.shared r.second × ((view r.second.seat).parts ≡ 1) × ((view r.second.seat).right ≡ 0) × ((view r.second.seat).own ≡ 0)) }
    ensures third { IfOk result (λ r. IsReady r.shared r.third × ((view r.third.seat).parts ≡ 1) × ((view r.third.seat).right ≡ 0)) }
{
    let a = CandSet::new(alloc, n, false)?;
    let b = CandSet::new(alloc, n, false)?;
    let c = CandSet::new(alloc, n, false)?;
    let (shared, mut seat) = Shared::new(alloc, n, 3)?;
    let second = Sitter {
        seat: shared.fork(&mut seat),
        set: b,
    };
    let third = Sitter {
        seat: shared.fork(&mut seat),
        set: c,
    };
    Ok(Three {
        shared,
        first: Sitter { seat, set: a },
        second,
        third,
    })
}

// What is left, once the second and the third seat were merged into the first.
fn close_three(three: Three) -> CandSet
    requires first { IsReady three.shared three.first × IsFirst three.first.seat × ((view three.first.seat).parts ≡ 1) × ((view three.first.seat).right ≡ 0) }
    requires second { IsReady three.shared three.second × ((view three.second.seat).parts ≡ 1) × ((view three.second.seat).right ≡ 0) }
    requires third { IsReady three.shared three.third × ((view three.third.seat).parts ≡ 1) × ((view three.third.seat).right ≡ 0) }
    requires seats { three.shared.seats ≡ 3 }
    ensures { length result ≡ three.shared.cands }
{
    let Three {
        shared,
        first,
        second,
        third,
    } = three;
    let Sitter { seat, set } = first;
    let Sitter {
        seat: other,
        set: _,
    } = second;
    let Sitter { seat: last, set: _ } = third;
    let mut seat = seat;
    let mut set = set;
    shared.merge(&mut seat, other);
    shared.merge(&mut seat, last);
    shared.finish(seat, &mut set);
    set
}

/// What the seats saw of the last candidate, and what was left.
#[derive(Drop)]
pub struct Older {
    /// The third seat had it in its first snapshot.
    pub third_had_it: bool,
    /// What the first seat's clearing gave.
    pub first: Option<Cleared>,
    /// The next snapshots of the first and the third seat lack it.
    pub both_lack_it: bool,
    /// What the second seat's clearing gave, from its older snapshot.
    pub second: Option<Cleared>,
    /// What is left in the end.
    pub left: CandSet,
}

/// Three seats take snapshots of `n` candidates. The first seat and then the second, from its older
/// snapshot, draw for the last candidate and clear it.
pub fn older_snapshot(alloc: Global, n: u32) -> Result<Older, AllocError>
    requires { 0 < n }
    ensures { IfOk result (λ r. length r.left ≡ n) }
{
    let last = CandId(n - 1);
    let mut three = open_three(alloc, n)?;
    look(&three.shared, &mut three.first);
    look(&three.shared, &mut three.second);
    look(&three.shared, &mut three.third);
    let third_had_it = three.third.set.has(last);
    let first = clear_from(&three.shared, &mut three.first, last);
    look(&three.shared, &mut three.first);
    look(&three.shared, &mut three.third);
    let both_lack_it = !three.first.set.has(last) && !three.third.set.has(last);
    let second = clear_from(&three.shared, &mut three.second, last);
    let left = close_three(three);
    Ok(Older {
        third_had_it,
        first,
        both_lack_it,
        second,
        left,
    })
}

// One link: the count of a new snapshot, and the number of the candidate's draw.
fn chain_link(
    shared: &Shared,
    s: &mut Sitter,
    c: CandId,
    counts: &mut Vec<u32>,
    numbers: &mut Vec<u64>,
) -> Result<(), AllocError>
    requires ready { IsReady shared.now s.old }
    requires cand { c.0 < shared.now.cands }
    requires room { (view s.old.seat).own < 4294967296 }
    ensures ready { IsReady shared.now s.new }
    ensures standing { SameStanding (view s.old.seat) (view s.new.seat) }
    ensures own { (view s.new.seat).own ≤ (view s.old.seat).own + 1 }
{
    look(shared, s);
    counts.push(s.set.count())?;
    if let Some(cleared) = clear_from(shared, s, c) {
        numbers.push(cleared.number)?;
    }
    Ok(())
}

/// One seat drops `n` candidates one after the other. The answer is how many candidates each
/// snapshot had and how many were left, and the numbers that were drawn.
pub fn chain(alloc: Global, n: u32) -> Result<(Vec<u32>, Vec<u64>), AllocError> {
    let mut counts = Vec::new(alloc);
    let mut numbers = Vec::new(alloc);
    let set = CandSet::new(alloc, n, false)?;
    let (shared, seat) = Shared::new(alloc, n, 1)?;
    let mut s = Sitter { seat, set };
    for c in 0..n {
        chain_link(&shared, &mut s, CandId(c), &mut counts, &mut numbers)?;
    }
    let Sitter { seat, mut set } = s;
    shared.finish(seat, &mut set);
    counts.push(set.count())?;
    Ok((counts, numbers))
}
