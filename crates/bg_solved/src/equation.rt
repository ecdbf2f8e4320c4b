//! Equalities as sums.
ghost use Rattle.std.specs.Prelude.{◌≡◌};
ghost use Rattle.bg_rows.specs.Entries.{rising};

use bg_rows::{Entry, Row};

/// That the sum of the entries is the bound. The entries stand by variable number, each variable once, and no coefficient is 0.
#[derive(Drop)]
pub struct Equation {
    pub entries: Vec<Entry>,
    pub bound: i128,
}

/// Whether the variables rise and no coefficient is 0.
fn is_rising(entries: &[Entry]) -> bool
    ensures { result ≡ rising 0 entries.now }
{
    let mut low: u64 = 0;
    for t in entries {
        if (t.variable as u64) < low {
            return false;
        }
        if t.by == 0 {
            return false;
        }
        low = t.variable as u64 + 1;
    }
    true
}

/// The row that the sum of the entries is at most the bound; none where the variables don't rise or a coefficient is 0.
pub fn made_row(entries: Vec<Entry>, bound: i128) -> Option<Row> {
    if is_rising(&entries) {
        Some(Row { entries, bound })
    } else {
        None
    }
}
