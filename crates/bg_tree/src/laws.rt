//! Laws on what the search finds, each the contract of a function that does nothing.
ghost use Rattle.std.specs.Prelude.{◌≡◌, ℕ, ℤ, pos, ◌<◌, Bool, true, false, List, [], ◌∷◌, length, map};
ghost use Rattle.bg_rows.specs.Rows.{row_of};
ghost use Rattle.bg_elim.specs.Answers.{SolvedBy};
ghost use Rattle.bg_point.specs.Points.{value_of, IsPoint};
ghost use Rattle.bg_tree.specs.Counts.{Alone, counted};
ghost use Rattle.bg_tree.specs.Shapes.{Shape, AreLeaves, parts_of, count};
ghost use Rattle.bg_tree.specs.Far.{doubled, IsFarLeaf};
ghost use Rattle.bg_formula.specs.Formulas.{Formula, is_whole};
ghost use Rattle.bg_formula.specs.Atoms.{at};
ghost use Rattle.bg_formula.specs.Meaning.{Valuation, signed, clauses_true, MeetsUnits, AtomsAgree};
ghost use Rattle.bg_cert.specs.Paths.{decides};
ghost use Rattle.bg_elim.specs.declared.order.Order.{Order};
ghost use Rattle.bg_elim.specs.declared.order.Further.{Further};
ghost use Rattle.bg_elim.specs.Kept.{FillBudget};
ghost use Rattle.bg_cert.specs.declared.cert.Decision.{Decision};
ghost use Rattle.bg_cert.specs.Paths.{rows_on};
ghost use Rattle.bg_cert.specs.Certs.{root};
ghost use Rattle.bg_cert.specs.Causes.{has_bound};
ghost use Rattle.bg_pick.specs.Picks.{IsComplete};
ghost use Rattle.bg_tree.specs.declared.outcome.Beyond.TheVariants.{Elimination};
ghost use Rattle.bg_tree.specs.Once.{IsOnce, bounds_in};
ghost use Rattle.bg_tree.specs.Ways.{IsWay};
ghost use Rattle.bg_tree.specs.Wide.{AreTruths, refutable, all, wide_path, IsWide, long_path, IsLong};
ghost use Rattle.bg_tree.specs.declared.outcome.Leaf.{Leaf};
ghost use Rattle.bg_tree.specs.Ends.{IsBeyond, IsLeaf, TruthsAgree};

/// A valuation that has the numbers of a complete leaf's point, 0 elsewhere, and agrees with the
/// truth values of its path meets the clauses and the units of the set, and makes each atom what the
/// path decides, where each row stands with its denial.
pub fn leaves_are_met()
    ensures clauses { (targets : ℕ → ℤ) (f : Formula) (set : ℕ → Bool) (leaf : Leaf) (v : Valuation) → is_whole f ≡ true → AtomsAgree f.atoms → IsLeaf targets f set leaf →
        ((x : ℕ) → v.numbers x ≡ value_of leaf.spots.items x) → TruthsAgree v f.atoms leaf.path.items → clauses_true v f.atoms f.clauses ≡ true }
    ensures units { (targets : ℕ → ℤ) (f : Formula) (set : ℕ → Bool) (leaf : Leaf) (v : Valuation) → is_whole f ≡ true → AtomsAgree f.atoms → IsLeaf targets f set leaf →
        ((x : ℕ) → v.numbers x ≡ value_of leaf.spots.items x) → TruthsAgree v f.atoms leaf.path.items → MeetsUnits v f set }
    ensures atoms { (targets : ℕ → ℤ) (f : Formula) (set : ℕ → Bool) (leaf : Leaf) (v : Valuation) → AtomsAgree f.atoms → IsLeaf targets f set leaf →
        ((x : ℕ) → v.numbers x ≡ value_of leaf.spots.items x) → TruthsAgree v f.atoms leaf.path.items →
        (a : ℕ) (s : Bool) → a < length f.atoms → decides a s leaf.path.items ≡ true → signed v (at f.atoms a) s ≡ true }
{}

/// On a path that a search may go, no atom has both signs, and each bound is of a term that is there.
pub fn ways_decide_once()
    ensures once { (targets : ℕ → ℤ) (f : Formula) (set : ℕ → Bool) (ds : List Decision) → IsWay targets f set (root f) ds → IsOnce ds }
    ensures bounds { (targets : ℕ → ℤ) (f : Formula) (set : ℕ → Bool) (ds : List Decision) → IsWay targets f set (root f) ds → bounds_in f.terms ds ≡ true }
{}

/// Over truth variables alone a path that a search may go has no bound.
pub fn ways_over_truths_have_no_bounds()
    ensures { (targets : ℕ → ℤ) (f : Formula) (set : ℕ → Bool) (ds : List Decision) → AreTruths f.atoms → IsWay targets f set (root f) ds → (x : ℕ) (k : ℤ) → has_bound x k ds ≡ false }
{}

/// A path that decides every atom and makes nothing false may carry bounds without a reason: an elimination on them leaves the range, or
/// they are as many different rows as are asked for. So these alone are no cause: no search may go such a path.
pub fn idle_bounds_are_no_cause()
    ensures range { (targets : ℕ → ℤ) (o : Order) (f : Further) → IsWide o f →
        IsComplete refutable all wide_path × IsBeyond targets (rows_on refutable.atoms wide_path) (Elimination o f) × (IsWay targets refutable all (root refutable) wide_path → ⊥) }
    ensures rows { (targets : ℕ → ℤ) (o : Order) → IsLong o →
        IsComplete refutable all long_path × FillBudget (rows_on refutable.atoms long_path) 3 o.variables.items o.reasons.items × (IsWay targets refutable all (root refutable) long_path → ⊥) }
{}

/// A path over `x + x == 1` with a bound for which there is no reason has a point of its rows that is near 0 by that bound, though twice it is
/// outside the range; so such a path is no complete leaf's: no search may go it, whatever the targets.
pub fn far_points_are_no_leaves()
    ensures { (targets : ℕ → ℤ) (leaf : Leaf) → IsFarLeaf leaf →
        IsComplete doubled all leaf.path.items × IsOnce leaf.path.items × SolvedBy (rows_on doubled.atoms leaf.path.items) leaf.order
        × IsPoint (λ x. pos 0) leaf.order.variables.items (map row_of leaf.order.rows.items) leaf.spots.items
        × (IsWay targets doubled all (root doubled) leaf.path.items → ⊥) }
{}

/// What is counted along the parts of a tree are the nodes of which not exactly one child is a closed leaf.
pub fn nodes_count_by_their_children()
    ensures { (t : Shape) → AreLeaves t → counted (Alone ∷ []) (parts_of t) ≡ count t }
{}
