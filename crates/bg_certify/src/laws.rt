//! Laws of certificates, which are proved of the definitions alone.
ghost use Rattle.std.specs.Prelude.{◌≡◌, ℕ, Bool, List, false};
ghost use Rattle.bg_ast.specs.Resolved.{Program};
ghost use Rattle.bg_ast.specs.Meaning.{meaning_of};
ghost use Rattle.bg_tree.specs.declared.outcome.Budget.{Budget};
ghost use Rattle.bg_check.specs.declared.verdict.Cause.{Cause};
ghost use Rattle.bg_sound.specs.Told.{Why, status_of};
ghost use Rattle.bg_inference.specs.declared.outcome.Outcome.{Outcome};
ghost use Rattle.bg_inference.specs.Outcomes.{IsTrueOutcome};
ghost use Rattle.bg_inference.specs.Told.{outcome_of};
ghost use Rattle.bg_front.specs.Programs.{IsProgramOf};
ghost use Rattle.bg_certtext.specs.Views.{CertOf};
ghost use Rattle.bg_confirm.specs.Accepted.{IsAccepted};
ghost use Rattle.bg_certify.specs.Names.{HasOwnNames};
ghost use Rattle.bg_certify.specs.Written.{IsWritten};

/// No two candidates of the program of a text, without guesses, have one name.
pub fn candidates_have_names_of_their_own()
    ensures { (bytes : List ℕ) (p : Program) → IsProgramOf false bytes p → HasOwnNames p }
{}

/// A program accepts the certificate of an outcome that is true of it, where its status is 0: the axioms are consistent, and each
/// implementation is verified.
pub fn verified_programs_are_accepted()
    ensures { (keeps : Bool) (budget : Budget) (p : Program) (o : Outcome) (words : ℕ → Cause → Why) (c : CertOf) → IsTrueOutcome keeps budget p o →
        status_of (outcome_of words (meaning_of p) o) ≡ 0 → IsWritten p o c → IsAccepted p c }
{}
