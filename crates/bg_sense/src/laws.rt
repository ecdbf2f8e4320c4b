// Laws of the meaning of programs, which are proved of the definitions alone.

ghost use Rattle.std.specs.Prelude.{◌≡◌, ◌↔◌, ℕ, ◌+◌, ◌<◌, length, Bool, true, List, [], Some, slice_get, Contains};
ghost use Rattle.bg_ast.specs.Syntax.{Skip, Proc, Impl, Prog};
ghost use Rattle.bg_ast.specs.Execution.{Interp, State, Choice, Spot, Place};
ghost use Rattle.bg_sense.specs.Run.{Answer, Failed, Going, Loops, Turning, is_kept, procedure_of, context, source_run, induction_run};
ghost use Rattle.bg_sense.specs.Claims.{places, IsInterp, Meets, IsState, Safe, Inductive, IsSetOf, Greatest, Fails, EachAt, union};
ghost use Rattle.bg_sense.specs.Resolved.{IsResolved};
ghost use Rattle.bg_sense.specs.Typed.{IsTyped};
ghost use Rattle.bg_sense.specs.Typing.{IsTypedSt, AreTypedBodies};

/// No step is made where none is left.
pub fn no_step_is_going()
    ensures { (p : Prog) (set : ℕ → Bool) (i : Interp) (k : ℕ) (m : Impl) (q : Proc) (s : State) (choices : List Choice) →
        slice_get p.implementations k ≡ Some m → procedure_of p m.procedure ≡ Some q →
        source_run p set i k s choices 0 ≡ Going }
{}

/// An execution that is over stays over with the same answer, however many more steps it is given.
pub fn what_is_over_stays()
    ensures { (p : Prog) (set : ℕ → Bool) (i : Interp) (k : ℕ) (s : State) (choices : List Choice) (n d : ℕ) (a : Answer) →
        (a ≡ Going → ⊥) → source_run p set i k s choices n ≡ a → source_run p set i k s choices (n + d) ≡ a }
{}

/// An empty body without postconditions is safe.
pub fn empty_is_safe()
    ensures { (p : Prog) (set : ℕ → Bool) (k : ℕ) (m : Impl) (q : Proc) →
        slice_get p.implementations k ≡ Some m → procedure_of p m.procedure ≡ Some q →
        m.body ≡ Skip → q.ensures_ ≡ [] → Safe p set k }
{}

/// Cutting loops loses no failure: where the source run of a typed body fails within some steps, some induction run
/// fails at the same check.
pub fn loops_may_be_cut()
    ensures { (p : Prog) (set : ℕ → Bool) (i : Interp) (k : ℕ) (m : Impl) (q : Proc) (s : State) (choices : List Choice) (n : ℕ) (spot : Spot) →
        slice_get p.implementations k ≡ Some m → procedure_of p m.procedure ≡ Some q →
        AreTypedBodies p → IsTypedSt (context Turning p set i k m q s) m.body →
        IsInterp p i → IsState p k s →
        source_run p set i k s choices n ≡ Failed spot →
        (others : List Choice) × (induction_run p set i k s others ≡ Failed spot) }
{}

/// A typed implementation of which no induction run fails is safe.
pub fn no_induction_failure_is_safe()
    ensures { (p : Prog) (set : ℕ → Bool) (k : ℕ) (m : Impl) (q : Proc) →
        slice_get p.implementations k ≡ Some m → procedure_of p m.procedure ≡ Some q →
        AreTypedBodies p → ((i : Interp) (s : State) → IsTypedSt (context Turning p set i k m q s) m.body) →
        ((i : Interp) (s : State) (choices : List Choice) (spot : Spot) → Meets p i → IsState p k s →
        induction_run p set i k s choices ≡ Failed spot → ⊥) →
        Safe p set k }
{}

/// An induction run that fails at a check under a set fails there under each smaller set that has the check's candidate.
pub fn smaller_sets_fail_too()
    ensures { (p : Prog) (set less : ℕ → Bool) (i : Interp) (k : ℕ) (s : State) (choices : List Choice) (spot : Spot) →
        ((b : ℕ) → less b ≡ true → set b ≡ true) → EachAt spot less (places p) →
        induction_run p set i k s choices ≡ Failed spot → induction_run p less i k s choices ≡ Failed spot }
{}

/// A run that fails at a place under a set fails there under each smaller set that has the place's candidate.
pub fn a_failure_is_one_under_smaller_sets()
    ensures { (p : Prog) (set less : ℕ → Bool) (t : Place) (i : Interp) (s : State) (choices : List Choice) →
        IsResolved p → ((b : ℕ) → less b ≡ true → set b ≡ true) → Contains (places p) t → is_kept less t.candidate ≡ true →
        Fails p set t i s choices → Fails p less t i s choices }
{}

/// Inductive sets join, so there is at most one greatest.
pub fn inductive_sets_join()
    ensures { (p : Prog) (set other : ℕ → Bool) →
        IsResolved p → Inductive p set → Inductive p other → Inductive p (union set other) }
{}

/// An induction run fails at places of its implementation alone.
pub fn only_places_fail()
    ensures { (p : Prog) (set : ℕ → Bool) (i : Interp) (k : ℕ) (m : Impl) (q : Proc) (s : State) (choices : List Choice) (spot : Spot) →
        slice_get p.implementations k ≡ Some m → procedure_of p m.procedure ≡ Some q →
        induction_run p set i k s choices ≡ Failed spot →
        (t : Place) × (Contains (places p) t × ((t.spot ≡ spot) × ((t.implementation ≡ k) × (is_kept set t.candidate ≡ true)))) }
{}

/// An implementation of a typed program is safe where no induction run fails at any of its places whose clause is there.
pub fn what_fails_at_no_place_is_safe()
    ensures { (p : Prog) (set : ℕ → Bool) (k : ℕ) → IsTyped p → k < length p.implementations →
        ((t : Place) (i : Interp) (s : State) (choices : List Choice) → Contains (places p) t → t.implementation ≡ k →
        is_kept set t.candidate ≡ true → Fails p set t i s choices → ⊥) →
        Safe p set k }
{}

/// A typed program has what the laws of a run ask: bodies of functions that are typed, and bodies of implementations in which the
/// statements that change variables are.
pub fn typed_programs_have_typed_bodies()
    ensures functions { (p : Prog) → IsTyped p → AreTypedBodies p }
    ensures implementations { (loops : Loops) (p : Prog) (set : ℕ → Bool) (i : Interp) (k : ℕ) (m : Impl) (q : Proc) (s : State) →
        IsTyped p → slice_get p.implementations k ≡ Some m → procedure_of p m.procedure ≡ Some q →
        IsTypedSt (context loops p set i k m q s) m.body }
{}

/// A set is the greatest inductive one where it is one of the program's candidates, inductive, and contains each inductive set of them.
pub fn what_contains_all_inductive_sets_is_greatest()
    ensures { (p : Prog) (set : ℕ → Bool) → IsSetOf p set → Inductive p set →
        ((other : ℕ → Bool) → IsSetOf p other → Inductive p other → (b : ℕ) → other b ≡ true → set b ≡ true) → Greatest p set }
{}

/// There is at most one greatest inductive set.
pub fn the_greatest_is_unique()
    ensures { (p : Prog) (set other : ℕ → Bool) → Greatest p set → Greatest p other → (b : ℕ) → set b ≡ true ↔ other b ≡ true }
{}
