//! Laws of opened programs, which are proved of the definitions alone.
ghost use Rattle.std.specs.Prelude.{◌≡◌, ◌↔◌, ◌<◌, ℕ, suc, Bool, true, List, [], ◌∷◌, length, Contains};
ghost use Rattle.bg_ast.specs.Resolved.{Program};
ghost use Rattle.bg_ast.specs.Meaning.{meaning_of};
ghost use Rattle.bg_ast.specs.Syntax.{Ex, Fun, Prog};
ghost use Rattle.bg_ast.specs.Execution.{Interp, State, Choice, Place};
ghost use Rattle.bg_sense.specs.Typed.{IsTyped};
ghost use Rattle.bg_sense.specs.Resolved.{IsResolved};
ghost use Rattle.bg_sense.specs.Run.{induction_run};
ghost use Rattle.bg_sense.specs.Clauses.{is_kept};
ghost use Rattle.bg_sense.specs.Places.{places};
ghost use Rattle.bg_sense.specs.Claims.{Meets, IsState, Safe, Fails, Inductive, Greatest};
ghost use Rattle.bg_fits.specs.Valued.{is_over_values};
ghost use Rattle.bg_opened.specs.Exprs.{opened, bodies_to, raw_bodies};
ghost use Rattle.bg_opened.specs.Programs.{opened_program};
ghost use Rattle.bg_opened.specs.Written as w;
ghost use Rattle.bg_opened.specs.Moments.{tables_of, with_constants, interp_in, without_constants};
ghost use Rattle.bg_opened.specs.Openable.{IsOpenable};
ghost use Rattle.bg_opened.specs.Axioms.{of_axioms, axiom_program, axiom_place, no_state};

use bg_sense::laws::what_fails_at_no_place_is_safe;

/// An opened program has the places of the program.
pub fn opened_programs_have_the_same_places()
    ensures { (depth : ℕ) (p : Prog) → places (opened_program depth p) ≡ places p }
{}

/// An opened program has no constants, no axioms and no bodies of functions, each of its maps has an index, it is typed, and its names are resolved.
pub fn opened_programs_are_over_values()
    ensures scalars { (depth : ℕ) (p : Prog) → IsOpenable depth p → is_over_values (opened_program depth p) ≡ true }
    ensures typed { (depth : ℕ) (p : Prog) → IsOpenable depth p → IsTyped (opened_program depth p) }
    ensures resolved { (depth : ℕ) (p : Prog) → IsOpenable depth p → IsResolved (opened_program depth p) }
{}

/// Under an interpretation that meets the program, a run of it is one of the opened program under its tables, in which the constants have
/// their values: the same answer for the same choices.
pub fn runs_are_opened_runs()
    ensures { (depth : ℕ) (p : Prog) (set : ℕ → Bool) (i : Interp) (k : ℕ) (s : State) (choices : List Choice) → IsOpenable depth p → Meets p i → IsState p k s →
        induction_run (opened_program depth p) set (tables_of i) k (with_constants i s) choices ≡ induction_run p set i k s choices }
{}

/// A run fails at a place exactly where the opened program's run fails there; and where the opened program's fails, the constants'
/// values in its state and its tables are an interpretation that meets the program, under which each run from there is the opened
/// program's.
pub fn failures_are_opened_failures()
    ensures opened { (depth : ℕ) (p : Prog) (set : ℕ → Bool) (t : Place) (i : Interp) (s : State) (choices : List Choice) → IsOpenable depth p →
        Fails p set t i s choices → Fails (opened_program depth p) set t (tables_of i) (with_constants i s) choices }
    ensures closed { (depth : ℕ) (p : Prog) (set : ℕ → Bool) (t : Place) (i : Interp) (s : State) (choices : List Choice) → IsOpenable depth p →
        Fails (opened_program depth p) set t i s choices → Fails p set t (interp_in p i s) (without_constants p s) choices }
    ensures runs { (depth : ℕ) (p : Prog) (set : ℕ → Bool) (t : Place) (i : Interp) (s : State) (choices others : List Choice) → IsOpenable depth p →
        Fails (opened_program depth p) set t i s choices →
        induction_run p set (interp_in p i s) t.implementation (without_constants p s) others ≡ induction_run (opened_program depth p) set i t.implementation s others }
{}

/// The inductive sets of candidates are those of the opened program, and so is the greatest.
pub fn inductive_sets_are_opened_ones()
    ensures inductive { (depth : ℕ) (p : Prog) (set : ℕ → Bool) → IsOpenable depth p → Inductive (opened_program depth p) set ↔ Inductive p set }
    ensures greatest { (depth : ℕ) (p : Prog) (set : ℕ → Bool) → IsOpenable depth p → Greatest (opened_program depth p) set → Greatest p set }
{}

/// An implementation is safe where no run of the opened program fails at any of its places whose clause is there.
pub fn safe_where_no_opened_run_fails()
    ensures { (depth : ℕ) (p : Prog) (set : ℕ → Bool) (k : ℕ) → IsOpenable depth p → k < length p.implementations →
        ((t : Place) (i : Interp) (s : State) (choices : List Choice) → Contains (places p) t → t.implementation ≡ k → is_kept set t.candidate ≡ true →
        Fails (opened_program depth p) set t i s choices → ⊥) → Safe p set k }
{
    what_fails_at_no_place_is_safe()
}

/// The axioms' own program can be opened; it has one place, and a run fails there exactly where its constants' values and its tables are
/// an interpretation that meets the program.
pub fn axioms_have_a_program()
    ensures openable { (depth : ℕ) (p : Prog) → IsOpenable depth p → IsOpenable depth (of_axioms p) }
    ensures place { (depth : ℕ) (p : Prog) → places (axiom_program depth p) ≡ axiom_place ∷ [] }
    ensures met { (depth : ℕ) (p : Prog) (set : ℕ → Bool) (i : Interp) → IsOpenable depth p → Meets p i →
        Fails (axiom_program depth p) set axiom_place (tables_of i) (with_constants i no_state) [] }
    ensures meets { (depth : ℕ) (p : Prog) (set : ℕ → Bool) (i : Interp) (s : State) (choices : List Choice) → IsOpenable depth p →
        Fails (axiom_program depth p) set axiom_place i s choices → Meets p (interp_in (of_axioms p) i s) }
{}

/// Bodies that are opened one level deeper are those that are put in once more before: so they may be opened in passes over an
/// expression, each of which puts bodies in as they are.
pub fn bodies_may_be_opened_in_passes()
    ensures { (g : ℕ) (fs : List Fun) (depth : ℕ) (e : Ex) → opened g (bodies_to g fs depth) (opened g (raw_bodies fs) e) ≡ opened g (bodies_to g fs (suc depth)) e }
{}

/// A program that is opened as it is written means what it means, opened.
pub fn written_programs_are_opened()
    ensures { (depth : ℕ) (p : Program) → meaning_of (w.opened_program depth p) ≡ opened_program depth (meaning_of p) }
{}
