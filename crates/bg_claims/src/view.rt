//! What contracts see of a seat.
use bg_base::Row;

/// What a seat knows. No value of it is made: it is in proofs alone.
#[derive(Drop)]
pub struct ClaimView {
    /// The claimed numbers are below it.
    pub limit: u64,
    /// How many seats the table was made with.
    pub seats: u64,
    /// How many of them are in this one.
    pub parts: u64,
    /// How many of those found the counter at the limit.
    pub stops: u64,
    /// One of them did.
    pub ended: bool,
    /// The numbers that they claimed.
    pub numbers: Row<u64>,
}
