//! What a true outcome means, proved of the definitions alone.
ghost use Rattle.std.specs.Prelude.{◌≡◌, ℕ, Bool, true};
ghost use Rattle.bg_ast.specs.Resolved.{Program};
ghost use Rattle.bg_ast.specs.Meaning.{meaning_of};
ghost use Rattle.bg_opened.specs.Openable.{IsOpenable};
ghost use Rattle.bg_expanded.specs.Chains.{most_bodies};
ghost use Rattle.bg_tree.specs.declared.outcome.Budget.{Budget};
ghost use Rattle.bg_sound.specs.Told.{Why};
ghost use Rattle.bg_sound.specs.Sound.{IsSound};
ghost use Rattle.bg_check.specs.declared.verdict.Cause.{Cause};
ghost use Rattle.bg_inference.specs.declared.outcome.Outcome.{Outcome};
ghost use Rattle.bg_inference.specs.Outcomes.{IsTrueOutcome};
ghost use Rattle.bg_inference.specs.Told.{outcome_of};

use bg_carried::laws::{axioms_are_told, reports_of_opened_programs_are_true};
use bg_cert::laws::accepted_where_used;
use bg_opened::laws::{axioms_have_a_program, opened_programs_are_over_values};
use bg_task::laws::proved_places_do_not_fail;

/// What a report tells of a true outcome is true, whatever words it has for causes.
pub fn true_outcomes_are_sound()
    ensures { (keeps : Bool) (budget : Budget) (p : Program) (o : Outcome) (words : ℕ → Cause → Why) → IsOpenable most_bodies (meaning_of p) →
        IsTrueOutcome keeps budget p o → IsSound p (outcome_of words (meaning_of p) o) }
{
    axioms_have_a_program();
    opened_programs_are_over_values();
    axioms_are_told();
    reports_of_opened_programs_are_true();
    accepted_where_used();
    proved_places_do_not_fail();
    bg_houdini::laws::true_outcomes_are_sound()
}
