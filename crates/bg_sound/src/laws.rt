//! Laws of what reports tell.
ghost use Rattle.std.specs.Prelude.{◌≡◌, ◌⊎◌, ℕ, Bool, true, false, map, List, [], ◌∷◌, ◌++◌, Some, slice_get};
ghost use Rattle.bg_ast.specs.Syntax.{Prog};
ghost use Rattle.bg_ast.specs.Resolved.{Program, Impl};
ghost use Rattle.bg_ast.specs.Meaning.{meaning_of};
ghost use Rattle.bg_ast.specs.Execution.{Interp, State, Choice, Place};
ghost use Rattle.bg_sense.specs.Run.{Answer, BadChoice, induction_run};
ghost use Rattle.bg_sense.specs.Claims.{Meets, Safe, Fails};
ghost use Rattle.bg_fits.specs.Valued.{is_over_values};
ghost use Rattle.bg_sound.specs.Told.{Consistent, Outcome, retained, word_of, are_settled, status_of};
ghost use Rattle.bg_sound.specs.Sound.{AreAxioms, IsSound};

/// Two reports of one program that both call the retained set greatest retain the same candidates.
pub fn greatest_sets_agree()
    ensures { (p : Program) (a b : Outcome) → IsSound p a → IsSound p b → a.is_greatest ≡ true → b.is_greatest ≡ true → (c : ℕ) → retained a c ≡ retained b c }
{}

/// Two such reports that leave no place unknown have the same word for each implementation, whatever the schedule and the budgets were.
pub fn settled_words_agree()
    ensures { (p : Program) (a b : Outcome) → IsSound p a → IsSound p b → a.is_greatest ≡ true → b.is_greatest ≡ true →
        are_settled a.implementations ≡ true → are_settled b.implementations ≡ true → map word_of a.implementations ≡ map word_of b.implementations }
{}

/// An induction run that doesn't lack a choice is the same with more choices behind.
pub fn more_choices_change_nothing()
    ensures { (p : Prog) (set : ℕ → Bool) (i : Interp) (k : ℕ) (s : State) (choices others : List Choice) (a : Answer) →
        (a ≡ BadChoice → ⊥) → induction_run p set i k s choices ≡ a → induction_run p set i k s (choices ++ others) ≡ a }
{}

/// A failing run without its last choice lacks a choice, or fails at the same place.
pub fn shorter_runs_lack_a_choice_or_fail()
    ensures { (p : Prog) (set : ℕ → Bool) (t : Place) (i : Interp) (s : State) (front : List Choice) (last : Choice) →
        Fails p set t i s (front ++ (last ∷ [])) → (induction_run p set i t.implementation s front ≡ BadChoice) ⊎ Fails p set t i s front }
{}

/// A program without constants, axioms and bodies of functions has consistent axioms.
pub fn programs_over_values_are_consistent()
    ensures { (p : Prog) → is_over_values p ≡ true → AreAxioms p Consistent }
{}

/// Status 0 says that some interpretation meets the program, and that no execution of any implementation fails, of any number of steps,
/// under any interpretation that meets it, calls meaning their specifications with the retained candidates.
pub fn status_zero_is_safe()
    ensures { (p : Program) (o : Outcome) → IsSound p o → status_of o ≡ 0 →
        ((i : Interp) × Meets (meaning_of p) i) × ((k : ℕ) (m : Impl) → slice_get p.implementations k ≡ Some m → Safe (meaning_of p) (retained o) k) }
{}
