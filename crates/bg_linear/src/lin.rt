//! Linear forms.
ghost use Rattle.std.specs.Prelude.{◌≡◌, true};
ghost use Rattle.bg_rows.specs.Entries.{rising};

use bg_rows::Entry;

/// The sum of the entries and a constant. The entries stand by variable number, each variable once, and no coefficient is 0.
#[derive(Drop)]
pub struct Lin {
    pub entries: Vec<Entry>,
    pub constant: i128,
    ghost normal: { rising 0 entries.items ≡ true },
}
