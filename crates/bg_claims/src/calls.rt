//! The calls on claims. Each is one or two atomic steps, and none but `new` takes memory.
ghost use Rattle.std.specs.Prelude.{◌≡◌, ◌<◌, ◌⊎◌, All, true, length, IfOk, IfSome, IfNone, None};
ghost use Rattle.bg_claims.specs.Claims.{joined, Told};
ghost use Rattle.bg_claims.specs.Seats.{view, IsOf, IsFresh, IsClaimed, IsEnd};

use crate::table::{ClaimSeat, Claiming, Claims, Looking, OnePart, Size};
use atomic_table::Table;
use std::alloc::{AllocError, Global};

impl Claims {
    /// The numbers below `limit`, none of them claimed, and `seats` seats. Fails for want of memory
    /// alone.
    pub fn new(
        alloc: Global,
        limit: u32,
        seats: u32,
    ) -> Result<(Claims, Vec<ClaimSeat>), AllocError>
        requires { 0 < seats }
        ensures claims { IfOk result (λ r. (r.0.limit ≡ limit) × (r.0.seats ≡ seats)) }
        ensures count { IfOk result (λ r. length r.1.items ≡ seats) }
        ensures seats { IfOk result (λ r. All (IsFresh r.0) r.1.items) }
    {
        let size = Size { limit, seats };
        let (table, mut first) = Table::of_words(alloc, &[0], &size)?;
        let mut all = Vec::with_capacity(alloc, seats as usize)?;
        for _i in 1..seats {
            let seat = table.shared.split_seat::<OnePart>(&mut first);
            all.push(ClaimSeat { seat, ended: false })?;
        }
        all.push(ClaimSeat {
            seat: first,
            ended: false,
        })?;
        let claims = Claims {
            table,
            limit,
            seats,
        };
        Ok((claims, all))
    }

    /// The next number below the limit, which no other claim gives; none where the counter had
    /// reached the limit. A seat that ended, or took in one that did, makes no step.
    pub fn next(&self, seat: &mut ClaimSeat) -> Option<u32>
        requires { IsOf seat.old self.now }
        ensures own { IsOf seat.new self.now }
        ensures some { IfSome result (λ found. IsClaimed (view seat.old) (view seat.new) found) }
        ensures none { IfNone result (IsEnd (view seat.old) (view seat.new)) }
        ensures last { (view seat.old).ended ≡ true → (result ≡ None) × (view seat.new ≡ view seat.old) }
    {
        if seat.ended {
            return None;
        }
        let found = self
            .table
            .shared
            .fetch_add::<Claiming>(&mut seat.seat, 0, 1);
        if found < u64::from(self.limit) {
            Some(found as u32)
        } else {
            seat.ended = true;
            None
        }
    }

    /// The first seat has the numbers of both, all different, and has ended where one of both had.
    /// Once all seats are in one that has ended, its numbers are all below the limit.
    pub fn merge(&self, first: &mut ClaimSeat, other: ClaimSeat)
        requires { IsOf first.old self.now × IsOf other self.now }
        ensures own { IsOf first.new self.now }
        ensures both { view first.new ≡ joined (view first.old) (view other) }
        ensures ended { ((view first.old).ended ≡ true) ⊎ ((view other).ended ≡ true) → (view first.new).ended ≡ true }
        ensures told { Told (view first.new) }
    {
        let ClaimSeat { seat, ended } = other;
        self.table
            .shared
            .join_seat::<OnePart>(&mut first.seat, seat);
        if ended {
            first.ended = true;
        }
        self.table.shared.load::<Looking>(&mut first.seat, 0);
    }
}
