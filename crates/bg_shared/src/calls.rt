//! The calls on the shared set. Each is a fixed number of atomic steps with no retry, none waits for
//! another thread, and none but `new` takes memory.
ghost use Rattle.std.specs.Prelude.{◌≡◌, ℕ, ◌+◌, ◌<◌, ◌≤◌, ◌↔◌, true, false, length, IfOk};
ghost use mathlib.Core.Option.{some};
ghost use lib.ListN.{get_elem?};
ghost use Rattle.bg_base.specs.declared.ids.CandId.{CandId};
ghost use Rattle.bg_words.specs.declared.machine.Entry.{Entry};
ghost use Rattle.bg_words.specs.Sets.{has};
ghost use Rattle.bg_words.specs.History.{Dropped, Ordered};
ghost use Rattle.bg_shared.specs.Views.{opening_view, forking, forked, joining, drawing, clearing};
ghost use Rattle.bg_shared.specs.Table.{IsOpening};
ghost use Rattle.bg_shared.specs.Seats.{view, IsOf, IsFirst, IsPending, IsIdle, IsSnapshot, MayDraw};

use crate::shared::{CandSeat, Cleared, Clearing, Drawing, Forking, Looking, Shared, Size};
use atomic_table::Table;
use bg_base::CandId;
use bg_words::{CandSet, full_word};
use std::alloc::{AllocError, Global};

// The words of a table as it opens.
fn opening_words(alloc: Global, cands: u32) -> Result<Vec<u64>, AllocError>
    ensures { IfOk result (λ w. IsOpening cands w.items) }
{
    let count = cands.div_ceil(64);
    let mut words = Vec::with_capacity(alloc, count as usize + 1)?;
    words.push_reserved(0);
    for i in 0..count {
        words.push_reserved(full_word(cands, i));
    }
    Ok(words)
}

impl Shared {
    /// How many candidates were declared.
    pub fn cands(&self) -> u32
        ensures { result ≡ self.now.cands }
    {
        self.cands
    }

    /// The set of all `cands` candidates, and the first of up to `seats` seats. Fails for want of
    /// memory alone.
    pub fn new(alloc: Global, cands: u32, seats: u32) -> Result<(Shared, CandSeat), AllocError>
        requires { (0 < seats) × (seats ≤ 1024) }
        ensures shared { IfOk result (λ r. (r.0.cands ≡ cands) × (r.0.seats ≡ seats)) }
        ensures seat { IfOk result (λ r. IsOf r.1 r.0 × (view r.1 ≡ opening_view cands seats)) }
    {
        let size = Size { cands, seats };
        let words = opening_words(alloc, cands)?;
        let (table, seat) = Table::of_words(alloc, words.as_slice(), &size)?;
        let shared = Shared {
            table,
            cands,
            seats,
        };
        Ok((
            shared,
            CandSeat {
                seat,
                pending: None,
            },
        ))
    }

    /// A new seat, which knows to be gone what the first knows to be gone.
    pub fn fork(&self, first: &mut CandSeat) -> CandSeat
        requires of { IsOf first.old self.now × (0 < (view first.old).right) }
        requires first { IsFirst first.old }
        ensures first { IsOf first.new self.now × (view first.new ≡ forking (view first.old)) }
        ensures new { IsOf result self.now × (view result ≡ forked (view first.old)) }
    {
        let seat = self.table.shared.split_seat::<Forking>(&mut first.seat);
        CandSeat {
            seat,
            pending: None,
        }
    }

    /// The first seat takes in what the other knows and what it cleared. A draw that is pending
    /// there is given up.
    pub fn merge(&self, first: &mut CandSeat, other: CandSeat)
        requires of { IsOf first.old self.now × IsOf other self.now }
        requires first { IsFirst first.old }
        ensures { IsOf first.new self.now × (view first.new ≡ joining (view first.old) (view other)) }
    {
        let CandSeat { seat, pending: _ } = other;
        self.table
            .shared
            .join_seat::<Forking>(&mut first.seat, seat);
    }

    /// The candidates that are there, read word by word: those outside what the seat then knows to
    /// be gone. They need never have been there all at one moment.
    pub fn snapshot_into(&self, seat: &mut CandSeat, set: &mut CandSet)
        requires own { IsOf seat.old self.now × (length set.old ≡ self.now.cands) }
        requires idle { IsIdle seat.old }
        ensures own { IsOf seat.new self.now × (length set.new ≡ length set.old) }
        ensures shot { IsSnapshot self.now.cands (view seat.old) (view seat.new) set.new }
    {
        for i in 0..set.word_count() {
            let word = self
                .table
                .shared
                .load::<Looking>(&mut seat.seat, i as usize + 1);
            set.set_word(i, word);
        }
    }

    /// The next number, drawn for a candidate of the seat's last snapshot, which is `set`. It is
    /// above each number of the seat's entries.
    pub fn draw(&self, seat: &mut CandSeat, c: CandId, set: &CandSet) -> u64
        requires own { IsOf seat.old self.now }
        requires idle { IsIdle seat.old }
        requires may { MayDraw self.now.cands (view seat.old) c.0 set.now }
        ensures own { IsOf seat.new self.now }
        ensures draw { view seat.new ≡ drawing (view seat.old) result }
        ensures pending { IsPending seat.new result c }
        ensures rises { (k : ℕ) (e : Entry) → get_elem? (view seat.old).seen.entries k ≡ some e → e.number < result }
    {
        let _ = set;
        let number = self.table.shared.fetch_add::<Drawing>(&mut seat.seat, 0, 1);
        seat.pending = Some((number, c));
        number
    }

    /// Clears the candidate for which a number is drawn. The seat gains one entry, and knows that
    /// the candidate is gone.
    pub fn clear(&self, seat: &mut CandSeat) -> Cleared
        requires own { IsOf seat.old self.now }
        requires pending { (number : ℕ) × (c : CandId) × IsPending seat.old number c }
        ensures own { IsOf seat.new self.now }
        ensures idle { IsIdle seat.new }
        ensures entry { (c : CandId) × IsPending seat.old result.number c × (view seat.new ≡ clearing (view seat.old) result.number c.0 result.was_there) }
    {
        let Some((number, c)) = seat.pending else {
            unreachable!()
        };
        let keep = !(1 << (c.0 % 64));
        let found = self
            .table
            .shared
            .fetch_and::<Clearing>(&mut seat.seat, (c.0 / 64) as usize + 1, keep);
        seat.pending = None;
        Cleared {
            number,
            was_there: (found >> (c.0 % 64)) & 1 == 1,
        }
    }

    /// The candidates that are left, once every other seat was merged into the first: the declared
    /// ones less those of its entries, which are an ordered history.
    pub fn finish(self, first: CandSeat, set: &mut CandSet)
        requires own { IsOf first self × (length set.old ≡ self.cands) }
        requires first { IsFirst first }
        requires idle { IsIdle first }
        requires all { (view first).parts + (view first).right ≡ self.seats }
        ensures count { length set.new ≡ length set.old }
        ensures ordered { Ordered self.cands (view first).seen.entries }
        ensures retained { (c : ℕ) → c < self.cands → (has set.new c ≡ false) ↔ Dropped (view first).seen.entries c }
        ensures missing { (c : ℕ) → has (view first).seen.missing c ≡ true → Dropped (view first).seen.entries c }
    {
        let CandSeat { seat, pending: _ } = first;
        let Shared {
            table,
            cands: _,
            seats: _,
        } = self;
        let closed = table.close_with(seat);
        for i in 0..set.word_count() {
            set.set_word(i, closed.word(i as usize + 1));
        }
        closed.free();
    }
}
