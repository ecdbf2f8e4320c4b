//! Laws of what reports say.

ghost use Rattle.std.specs.Prelude.{◌≡◌, ◌↔◌, ◌++◌, ℕ, Bool, List, Some, filter, length, map, true, All};
ghost use Rattle.std.specs.List.{list_all};
ghost use Rattle.bg_ast.specs.Meaning.{meaning_of};
ghost use Rattle.bg_ast.specs.Resolved.{Program};
ghost use Rattle.bg_ast.specs.Values.{Ty, Val, is_of};
ghost use Rattle.bg_check.specs.declared.verdict.Cause.{Cause};
ghost use Rattle.bg_expanded.specs.Chains.{most_bodies};
ghost use Rattle.bg_inference.specs.declared.outcome.Outcome as inference;
ghost use Rattle.bg_inference.specs.Outcomes.{IsTrueOutcome};
ghost use Rattle.bg_inference.specs.Told.{outcome_of};
ghost use Rattle.bg_opened.specs.Openable.{IsOpenable};
ghost use Rattle.bg_sound.specs.Told.{Why, Consistent, Judged, Outcome, retained, is_proved, word_of, AllProved, status_of};
ghost use Rattle.bg_text.specs.declared.token.Kind.TheVariants as kinds;
ghost use Rattle.bg_text.specs.Pieces.{Token, piece_of};
ghost use Rattle.bg_told.specs.Distinct.{HaveNames, fits_in, ends};
ghost use Rattle.bg_told.specs.Lines.{is_printed};
ghost use Rattle.bg_told.specs.Report.{result_text};
ghost use Rattle.bg_told.specs.Settled.{is_settled, verdict_lines};
ghost use Rattle.bg_told.specs.ValueTexts.{value_text};
ghost use Rattle.bg_tree.specs.declared.outcome.Budget.{Budget};

use bg_houdini::laws::outcomes_agree;
use bg_inference::laws::true_outcomes_are_sound;
use bg_opened::laws::opened_programs_are_over_values;
use bg_sound::laws::greatest_sets_agree;

/// Equal reports of one program say the same word of each implementation.
pub fn equal_reports_say_equal_words()
    ensures { (p : Program) (o other : Outcome) →
        length o.implementations ≡ length p.implementations → length other.implementations ≡ length p.implementations →
        result_text p o ≡ result_text p other → map word_of o.implementations ≡ map word_of other.implementations }
{}

/// Of a type that a text declares, the whole name is told: a name token has no byte below that of a space.
pub fn names_in_texts_are_told_whole()
    ensures { (word : List ℕ) → piece_of word ≡ Some (Token kinds.Name) → filter is_printed word ≡ word }
{}

/// Of one type, values of which one text tells are the same, and so is what stands behind the text, where no digit does; types have names
/// of a text, and numbers 128 bits.
pub fn equal_texts_tell_equal_values()
    ensures { (types : List (List ℕ)) (t : Ty) (v w : Val) (x y : List ℕ) → HaveNames types → is_of t v ≡ true → is_of t w ≡ true →
        fits_in v ≡ true → fits_in w ≡ true → ends x ≡ true → ends y ≡ true →
        value_text types t v ++ x ≡ value_text types t w ++ y → (v ≡ w) × (x ≡ y) }
{}

/// Equal reports of one program tell of the same retained set, and both that it is the greatest, or neither.
pub fn equal_reports_retain_equal_sets()
    ensures { (p : Program) (o other : Outcome) →
        length o.fates ≡ length p.candidates → length other.fates ≡ length p.candidates →
        result_text p o ≡ result_text p other → ((b : ℕ) → retained o b ≡ retained other b) × (o.is_greatest ≡ other.is_greatest) }
{}

/// An implementation is called verified exactly where each of its places is proved.
pub fn verified_is_all_proved()
    ensures { (js : List Judged) → (word_of js ≡ AllProved) ↔ (list_all (λ j. is_proved j.verdict) js ≡ true) }
{}

/// The status is 0 exactly where the axioms are consistent and each implementation is verified.
pub fn verified_is_each_verified()
    ensures { (o : Outcome) → (status_of o ≡ 0) ↔ ((o.axioms ≡ Consistent) × All (λ js. word_of js ≡ AllProved) o.implementations) }
{}

/// The reports of two true outcomes of one program, in neither of which anything is unknown, are the same but for the lines of
/// counterexamples, whatever the budgets, workers and schedules were, and whatever is kept.
pub fn settled_reports_agree()
    ensures { (keeps keeping : Bool) (budget other : Budget) (p : Program) (o q : inference.Outcome) (words : ℕ → Cause → Why) → IsOpenable most_bodies (meaning_of p) →
        IsTrueOutcome keeps budget p o → IsTrueOutcome keeping other p q → is_settled (outcome_of words (meaning_of p) o) ≡ true → is_settled (outcome_of words (meaning_of p) q) ≡ true →
        verdict_lines p (outcome_of words (meaning_of p) o) ≡ verdict_lines p (outcome_of words (meaning_of p) q) }
{
    greatest_sets_agree();
    opened_programs_are_over_values();
    outcomes_agree();
    true_outcomes_are_sound()
}
