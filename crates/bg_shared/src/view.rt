//! What contracts see of a seat.
use bg_base::Row;
use bg_words::Seen;

/// What a seat knows, and what its steps have cost. No value of it is made: it is in proofs alone.
#[derive(Drop)]
pub struct View {
    pub seen: Seen,
    /// False for a seat that was merged into the first.
    pub live: bool,
    pub cands: u64,
    pub seats: u64,
    /// 1 for the first seat, 0 for each other.
    pub first: u64,
    /// The forks that are still allowed.
    pub right: u64,
    /// How many seats are in this one.
    pub parts: u64,
    /// The draws of this seat.
    pub own: u64,
    /// The draws of all seats that are in this one.
    pub draws: u64,
    /// Nothing was drawn yet from the last snapshot.
    pub undrawn: bool,
    /// How often each candidate word was loaded.
    pub loads: Row<u64>,
}
