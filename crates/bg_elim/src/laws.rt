//! Laws on the definitions, each the contract of a function that does nothing.
ghost use Rattle.std.specs.Prelude.{◌≡◌, ℕ, ℤ, List, [], Some};
ghost use Rattle.bg_rows.specs.Rows.{RowOf, AllMeet};
ghost use Rattle.bg_elim.specs.declared.order.Reason.{Reason};
ghost use Rattle.bg_elim.specs.Kept.{AllKept, made_rows};

/// Whole numbers that meet the kept rows of an order meet the given rows.
pub fn kept_rows_suffice()
    ensures { (v : ℕ → ℤ) (given rows : List RowOf) → AllKept given rows → AllMeet v rows → AllMeet v given }
{}

/// Rows that are made of given ones follow from them.
pub fn kept_rows_follow()
    ensures { (v : ℕ → ℤ) (given : List RowOf) (order : List ℕ) (reasons : List Reason) (rows : List RowOf) →
        made_rows given order [] reasons ≡ Some rows → AllMeet v given → AllMeet v rows }
{}
