//! The table of claims: one word, which counts them.
ghost use Rattle.std.specs.Prelude.{◌≡◌, ◌^◌, ◌<◌, []};
ghost use Rattle.bg_claims.specs.Claims.{newcomer, spent, Kept, Claims, Looks, without_part, one_part, joined};

use crate::view::ClaimView;
use atomic_table::{Join, Play, Seat, Split, Table, TableRule};
use std::alloc::Global;

/// How many numbers there are, and how many seats.
#[derive(Drop)]
pub struct Size {
    pub limit: u32,
    pub seats: u32,
}

/// The rule of the counter.
pub struct Numbered;

impl TableRule<(), ClaimView, Size> for Numbered {
    ghost holds = { λ k. Kept k.limit k.seats };

    ghost first = { λ k. newcomer k.limit k.seats k.seats };
}

/// A claim.
pub struct Claiming;

impl Play<(), ClaimView> for Claiming {
    ghost then = { Claims };
}

/// A look at the counter, which tells what the numbers of a seat are.
pub struct Looking;

impl Play<(), ClaimView> for Looking {
    ghost then = { Looks };
}

/// A seat is made with one part of another, and given back.
pub struct OnePart;

impl Split<ClaimView> for OnePart {
    ghost left = { without_part };

    ghost right = { one_part };
}

impl Join<ClaimView> for OnePart {
    ghost both = { joined };

    ghost spent = { spent };
}

/// A seat at the counter.
#[derive(Drop)]
pub struct ClaimSeat {
    pub(crate) seat: Seat<(), ClaimView>,
    pub(crate) ended: bool,
    ghost fits: { (seat.me.0.ended ≡ ended) × (0 < seat.me.0.parts) },
    ghost bare: { seat.me.1 ≡ [] },
}

/// A counter, and the limit of the numbers.
#[derive(Drop)]
pub struct Claims {
    pub(crate) table: Table<(), ClaimView, Size, Numbered, Global>,
    pub(crate) limit: u32,
    pub(crate) seats: u32,
    ghost key: { (table.shared.key.limit ≡ limit) × (table.shared.key.seats ≡ seats) },
    ghost small: { (limit < 2 ^ 32) × (seats < 2 ^ 32) },
    ghost words: { table.shared.table_id.words ≡ 1 },
}
