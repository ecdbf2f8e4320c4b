//! Laws of keys, each the contract of a function that does nothing.
ghost use Rattle.std.specs.Prelude.{◌≡◌, true};
ghost use Rattle.std.specs.Ordering.{is_eq};
ghost use Rattle.bg_rows.specs.Rows.{RowOf};
ghost use Rattle.bg_rows.specs.Keys.{key_cmp, key_of};

/// Rows of which the keys compare equal are equal.
pub fn equal_keys_are_of_equal_rows()
    ensures { (r s : RowOf) → is_eq (key_cmp (key_of r) (key_of s)) ≡ true → r ≡ s }
{}

/// The key of a row compares equal to itself.
pub fn keys_find_their_rows()
    ensures { (r : RowOf) → is_eq (key_cmp (key_of r) (key_of r)) ≡ true }
{}
