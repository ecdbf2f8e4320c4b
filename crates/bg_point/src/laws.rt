//! Laws on the definitions, each the contract of a function that does nothing.
ghost use Rattle.std.specs.Prelude.{◌≡◌, ℕ, ℤ, true, List, Some};
ghost use Rattle.bg_rows.specs.Rows.{RowOf, IsNormal, AllMeet};
ghost use Rattle.bg_rows.specs.Steps.{row_at};
ghost use Rattle.bg_elim.specs.Kept.{AllKept};
ghost use Rattle.bg_point.specs.declared.spot.Spot.{Spot};
ghost use Rattle.bg_point.specs.Points.{value_of, is_near, IsNearer, KeepsOut, IsPoint};

/// A point of an order meets the given rows.
pub fn a_point_meets_the_given_rows()
    ensures { (targets : ℕ → ℤ) (given : List RowOf) (order : List ℕ) (rows : List RowOf) (spots : List Spot) → AllKept given rows → IsPoint targets order rows spots → AllMeet (value_of spots) given }
{}

/// The row that is the reason of a near value keeps out each whole number nearer to the target: so a near value is the nearest that
/// the rows allow.
pub fn near_values_are_nearest()
    ensures { (targets : ℕ → ℤ) (order : List ℕ) (rows : List RowOf) (v : ℕ → ℤ) (x reason : ℕ) → ((n : ℕ) (r : RowOf) → row_at rows n ≡ Some r → IsNormal r) →
        is_near targets order rows v x reason ≡ true → (z : ℤ) → IsNearer (targets x) z (v x) → KeepsOut v x z (row_at rows reason) }
{}
