//! What a true outcome means, proved of the definitions alone.
ghost use Rattle.std.specs.Prelude.{◌≡◌, ℕ, Bool, true, List, Some, Contains};
ghost use Rattle.bg_ast.specs.Resolved.{Program};
ghost use Rattle.bg_ast.specs.Meaning.{meaning_of};
ghost use Rattle.bg_sense.specs.Typed.{IsTyped};
ghost use Rattle.bg_sense.specs.Resolved.{IsResolved};
ghost use Rattle.bg_ast.specs.Execution.{Place};
ghost use Rattle.bg_sense.specs.Places.{places};
ghost use Rattle.bg_sense.specs.Claims.{Inductive, Greatest};
ghost use Rattle.bg_fits.specs.Valued.{is_over_values};
ghost use Rattle.bg_words.specs.Sets.{has};
ghost use Rattle.bg_tree.specs.declared.outcome.Budget.{Budget};
ghost use Rattle.bg_sound.specs.Told.{Why};
ghost use Rattle.bg_sound.specs.Sound.{IsSound};
ghost use Rattle.bg_check.specs.declared.verdict.Cause.{Cause};
ghost use Rattle.bg_check.specs.Verdicts.{IsCertified};
ghost use Rattle.bg_term_table.specs.Lines.{lines_of};
ghost use Rattle.bg_task.specs.Certified.{HasCertificate};
ghost use Rattle.bg_rounds.specs.Outcomes.{NoneUnknown};
ghost use Rattle.bg_houdini.specs.declared.outcome.Outcome.{Outcome};
ghost use Rattle.bg_check.specs.declared.proof.Proof.{Proof};
ghost use Rattle.bg_houdini.specs.Outcomes.{IsKept, IsTrueOutcome};
ghost use Rattle.bg_houdini.specs.Told.{outcome_of};

use bg_check::laws::right_verdicts_are_true;
use bg_task::laws::proved_places_do_not_fail;

/// Each place of a retained candidate of a true outcome has a certificate that is accepted for its clauses, behind lines, under what
/// is retained.
pub fn retained_places_have_certificates()
    ensures { (keeps : Bool) (budget : Budget) (p : Program) (o : Outcome) (t : Place) (b : ℕ) → IsTrueOutcome keeps budget p o →
        Contains (places (meaning_of p)) t → t.candidate ≡ Some b → has o.inferred.retained b ≡ true → IsCertified (meaning_of p) (has o.inferred.retained) t }
{}

/// Where certificates are kept such a one is kept for each place of a retained candidate.
pub fn retained_places_keep_certificates()
    ensures { (budget : Budget) (p : Program) (o : Outcome) (t : Place) (b : ℕ) → IsTrueOutcome true budget p o →
        Contains (places (meaning_of p)) t → t.candidate ≡ Some b → has o.inferred.retained b ≡ true → (proof : Proof) × IsKept o proof × HasCertificate (meaning_of p) (has o.inferred.retained) t (lines_of proof.lines.items) proof.cert }
{}

/// The retained set of a true outcome is inductive: no place of a candidate in it fails under it.
pub fn retained_is_inductive()
    ensures { (keeps : Bool) (budget : Budget) (p : Program) (o : Outcome) → IsTyped (meaning_of p) → is_over_values (meaning_of p) ≡ true →
        IsTrueOutcome keeps budget p o → Inductive (meaning_of p) (has o.inferred.retained) }
{
    proved_places_do_not_fail()
}

/// Where no drop was unknown, it is the greatest inductive set of the program's candidates.
pub fn retained_is_greatest()
    ensures { (keeps : Bool) (budget : Budget) (p : Program) (o : Outcome) → IsTyped (meaning_of p) → is_over_values (meaning_of p) ≡ true → IsResolved (meaning_of p) →
        IsTrueOutcome keeps budget p o → NoneUnknown o.inferred → Greatest (meaning_of p) (has o.inferred.retained) }
{
    proved_places_do_not_fail()
}

/// Two true outcomes of one program without unknown drops retain the same set, whatever their budgets, workers and schedules, and whatever is
/// kept.
pub fn outcomes_agree()
    ensures { (keeps keeping : Bool) (budget other : Budget) (p : Program) (o q : Outcome) → IsTyped (meaning_of p) → is_over_values (meaning_of p) ≡ true → IsResolved (meaning_of p) →
        IsTrueOutcome keeps budget p o → IsTrueOutcome keeping other p q → NoneUnknown o.inferred → NoneUnknown q.inferred → o.inferred.retained ≡ q.inferred.retained }
{
    proved_places_do_not_fail()
}

/// What a report tells of a true outcome is true, whatever words it has for causes.
pub fn true_outcomes_are_sound()
    ensures { (keeps : Bool) (budget : Budget) (p : Program) (o : Outcome) (words : ℕ → Cause → Why) → IsTyped (meaning_of p) → is_over_values (meaning_of p) ≡ true → IsResolved (meaning_of p) →
        IsTrueOutcome keeps budget p o → IsSound p (outcome_of words (meaning_of p) o) }
{
    proved_places_do_not_fail();
    right_verdicts_are_true()
}
