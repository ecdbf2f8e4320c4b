//! Forms with a map from variables to coefficients.
ghost use Rattle.std.specs.Prelude.{◌≡◌, true};
ghost use Rattle.bg_rows.specs.Entries.{rising};
ghost use Rattle.bg_linear.specs.Lins.{listed};

use std::collections::BTreeMap;

/// A form whose coefficients are in a map, by variable. None is 0.
#[derive(Drop)]
pub struct Sum {
    pub terms: BTreeMap<u32, i128>,
    pub constant: i128,
    ghost normal: { rising 0 (listed terms.entries) ≡ true },
}
