//! Rows.
ghost use Rattle.std.specs.Prelude.{◌≡◌, true};
ghost use Rattle.bg_rows.specs.Entries.{rising};

use crate::entry::Entry;

/// A row: the sum of its entries is at most its bound. The entries stand by variable number, each
/// variable once, and no coefficient is 0.
#[derive(Drop)]
pub struct Row {
    pub entries: Vec<Entry>,
    pub bound: i128,
    ghost normal: { rising 0 entries.items ≡ true },
}
