//! The table of the shared set and its seats: word 0 is the counter of draws, the candidate words
//! follow.
ghost use Rattle.std.specs.Prelude.{◌≡◌, ◌+◌, ◌<◌, ◌≤◌, ◌^◌, [], true};
ghost use Rattle.bg_words.specs.Sets.{words_for};
ghost use Rattle.bg_shared.specs.Views.{opening_view, forking, forked, joining, spent};
ghost use Rattle.bg_shared.specs.Table.{Ruled, Looks, Draws, Clears, Matches};

use crate::view::View;
use atomic_table::{Join, Play, Seat, Split, Table, TableRule};
use bg_base::CandId;
use std::alloc::Global;

/// How many candidates, and how many seats.
#[derive(Drop)]
pub struct Size {
    pub cands: u32,
    pub seats: u32,
}

/// The rule of the table.
pub struct Ordering;

impl TableRule<(), View, Size> for Ordering {
    ghost holds = { λ k. Ruled k.cands k.seats };

    ghost first = { λ k. opening_view k.cands k.seats };
}

/// A load of a candidate word.
pub struct Looking;

impl Play<(), View> for Looking {
    ghost then = { Looks };
}

/// A draw.
pub struct Drawing;

impl Play<(), View> for Drawing {
    ghost then = { Draws };
}

/// A clearing.
pub struct Clearing;

impl Play<(), View> for Clearing {
    ghost then = { Clears };
}

/// The making and the joining of a seat.
pub struct Forking;

impl Split<View> for Forking {
    ghost left = { forking };

    ghost right = { forked };
}

impl Join<View> for Forking {
    ghost both = { joining };

    ghost spent = { spent };
}

/// A seat at the shared set. It has the draw that is pending, and nothing else: what it knows is in
/// its view.
#[derive(Drop)]
pub struct CandSeat {
    pub(crate) seat: Seat<(), View>,
    pub(crate) pending: Option<(u64, CandId)>,
    ghost matches: { Matches seat.me.0 pending },
    ghost live: { (seat.me.0.live ≡ true) × (0 < seat.me.0.parts) },
    ghost bare: { seat.me.1 ≡ [] },
}

/// The shared set of candidates, and the counter of the draws.
#[derive(Drop)]
pub struct Shared {
    pub(crate) table: Table<(), View, Size, Ordering, Global>,
    pub(crate) cands: u32,
    pub(crate) seats: u32,
    ghost key: { (table.shared.key.cands ≡ cands) × (table.shared.key.seats ≡ seats) },
    ghost small: { (cands < 2 ^ 32) × (seats ≤ 1024) },
    ghost words: { table.shared.table_id.words ≡ words_for cands + 1 },
    ghost slots: { table.shared.table_id.slots ≡ 0 },
}

/// What a clearing did: the number of its draw, and whether the candidate was still there.
#[derive(Clone, Copy)]
pub struct Cleared {
    pub number: u64,
    pub was_there: bool,
}
