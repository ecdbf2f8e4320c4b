//! Laws on the definitions, each the contract of a function that does nothing: each derived row
//! follows, and tightening and denial keep the whole solutions.
ghost use Rattle.std.specs.Prelude.{◌≡◌, ℕ, ℤ, pos, neg_ℤ, true, false, ◌<◌, ◌≤ℤ◌, ◌<ℤ◌, ◌*ℤ◌, ◌+ℤ◌, List, [], Ok, Some, ◌↔◌};
ghost use Rattle.std.specs.Int.{◌∣◌};
ghost use Rattle.bg_rows.specs.declared.entry.Entry.{Entry};
ghost use Rattle.bg_rows.specs.declared.step.Step.{Step};
ghost use Rattle.bg_rows.specs.Entries.{total, coefficient, mentions};
ghost use Rattle.bg_rows.specs.Rows.{RowOf, Meets, AllMeet, IsNormal, DividesAll, gcd_from, left_for, combined, tightened, eliminated, denied};
ghost use Rattle.bg_rows.specs.Steps.{derives};

/// A sum of multiples is the exact one, under all values.
pub fn combined_is_exact()
    ensures { (v : ℕ → ℤ) (r : RowOf) (k : ℤ) (s : RowOf) (l : ℤ) (t : RowOf) → combined r k s l ≡ Ok t →
        (total v t.entries ≡ (k *ℤ total v r.entries) +ℤ (l *ℤ total v s.entries)) × (t.bound ≡ (k *ℤ r.bound) +ℤ (l *ℤ s.bound)) }
{}

/// Each coefficient of a sum of multiples of normal rows is the exact one.
pub fn coefficients_are_exact()
    ensures { (x : ℕ) (r : RowOf) (k : ℤ) (s : RowOf) (l : ℤ) (t : RowOf) → IsNormal r → IsNormal s → combined r k s l ≡ Ok t →
        coefficient x t.entries ≡ (k *ℤ coefficient x r.entries) +ℤ (l *ℤ coefficient x s.entries) }
{}

/// A sum with multipliers of at least 0 follows.
pub fn combined_follows()
    ensures { (v : ℕ → ℤ) (r : RowOf) (k : ℤ) (s : RowOf) (l : ℤ) (t : RowOf) → pos 0 ≤ℤ k → pos 0 ≤ℤ l →
        combined r k s l ≡ Ok t → Meets v r → Meets v s → Meets v t }
{}

/// What is left after an elimination follows.
pub fn eliminated_follows()
    ensures { (v : ℕ → ℤ) (r s t : RowOf) (x : ℕ) → eliminated r s x ≡ Ok t → Meets v r → Meets v s → Meets v t }
{}

/// Where the row that an elimination leaves is met, the two bounds of the variable agree.
pub fn eliminated_makes_bounds_agree()
    ensures { (v : ℕ → ℤ) (up low t : RowOf) (x : ℕ) → pos 0 <ℤ coefficient x up.entries → coefficient x low.entries <ℤ pos 0 →
        eliminated up low x ≡ Ok t → Meets v t →
        (neg_ℤ (coefficient x up.entries) *ℤ left_for v x low) ≤ℤ (neg_ℤ (coefficient x low.entries) *ℤ left_for v x up) }
{}

/// Of normal rows, an eliminated variable is gone, and no variable comes in.
pub fn eliminated_is_gone()
    ensures gone { (x : ℕ) (up low t : RowOf) → IsNormal up → IsNormal low → pos 0 <ℤ coefficient x up.entries →
        coefficient x low.entries <ℤ pos 0 → eliminated up low x ≡ Ok t → mentions x t.entries ≡ false }
    ensures still { (x : ℕ) (r : RowOf) (k : ℤ) (s : RowOf) (l : ℤ) (t : RowOf) → IsNormal r → IsNormal s → combined r k s l ≡ Ok t →
        mentions x r.entries ≡ false → mentions x s.entries ≡ false → mentions x t.entries ≡ false }
{}

/// Every operation keeps rows normal.
pub fn rows_stay_normal()
    ensures combined { (r : RowOf) (k : ℤ) (s : RowOf) (l : ℤ) (t : RowOf) → IsNormal r → IsNormal s → combined r k s l ≡ Ok t → IsNormal t }
    ensures tightened { (r : RowOf) → IsNormal r → IsNormal (tightened r) }
    ensures denied { (r s : RowOf) → IsNormal r → denied r ≡ Ok s → IsNormal s }
{}

/// The common divisor divides each coefficient, and each number that does divides it.
pub fn the_divisor_is_greatest()
    ensures divides { (ts : List Entry) → DividesAll (gcd_from 0 ts) ts }
    ensures greatest { (d : ℕ) (ts : List Entry) → DividesAll d ts → d ∣ gcd_from 0 ts }
{}

/// Tightening divides each coefficient exactly, where the row has one.
pub fn tightening_divides_exactly()
    ensures { (x : ℕ) (r : RowOf) → 0 < gcd_from 0 r.entries →
        pos (gcd_from 0 r.entries) *ℤ coefficient x (tightened r).entries ≡ coefficient x r.entries }
{}

/// A tightened row has the same whole solutions.
pub fn tightened_keeps_solutions()
    ensures { (v : ℕ → ℤ) (r : RowOf) → Meets v r ↔ Meets v (tightened r) }
{}

/// A row's denial holds exactly where the row does not.
pub fn denied_denies()
    ensures holds { (v : ℕ → ℤ) (r s : RowOf) → denied r ≡ Ok s → (Meets v r → ⊥) → Meets v s }
    ensures fails { (v : ℕ → ℤ) (r s : RowOf) → denied r ≡ Ok s → Meets v s → Meets v r → ⊥ }
{}

/// Where a derivation ends in a false row, no whole numbers meet the rows of the path.
pub fn a_derivation_refutes()
    ensures { (v : ℕ → ℤ) (path : List RowOf) (steps : List Step) → derives path [] false steps ≡ true → AllMeet v path → ⊥ }
{}
