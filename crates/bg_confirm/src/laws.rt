//! What an accepted certificate means, proved of the definitions alone.
ghost use Rattle.std.specs.Prelude.{◌≡◌, ◌<◌, ℕ, length};
ghost use Rattle.bg_ast.specs.Meaning.{meaning_of};
ghost use Rattle.bg_ast.specs.Resolved.{Program};
ghost use Rattle.bg_ast.specs.Execution.{Interp};
ghost use Rattle.bg_sense.specs.Claims.{Meets, IsSetOf, Inductive, Safe};
ghost use Rattle.bg_opened.specs.Openable.{IsOpenable};
ghost use Rattle.bg_expanded.specs.Chains.{most_bodies};
ghost use Rattle.bg_certtext.specs.Views.{CertOf};
ghost use Rattle.bg_accept.specs.Accepted.{retained_by};
ghost use Rattle.bg_accept.specs.Answers.{AnswerOf, Accepted};
ghost use Rattle.bg_confirm.specs.Accepted.{IsAccepted, IsAnswer};

use bg_accept::laws::accepted_certificates_are_answered_so as answered_so;
use bg_places::laws::placed_are_places;
use bg_sense::laws::what_fails_at_no_place_is_safe;
use bg_task::laws::accepted_places_do_not_fail;

/// Where a program that can be opened accepts a certificate, some interpretation meets the program, the retained candidates are an
/// inductive set, and under it no execution of an implementation fails, of any number of steps, under any interpretation that meets the
/// program.
pub fn accepted_programs_are_safe()
    ensures { (p : Program) (c : CertOf) → IsOpenable most_bodies (meaning_of p) → IsAccepted p c →
        ((i : Interp) × Meets (meaning_of p) i) × (IsSetOf (meaning_of p) (retained_by p c)) × (Inductive (meaning_of p) (retained_by p c)) × ((k : ℕ) → k < length p.implementations → Safe (meaning_of p) (retained_by p c) k) }
{
    accepted_places_do_not_fail();
    placed_are_places();
    what_fails_at_no_place_is_safe()
}

/// A certificate that is accepted isn't answered in another way.
pub fn accepted_certificates_are_answered_so()
    ensures { (p : Program) (c : CertOf) (a : AnswerOf) → IsAccepted p c → IsAnswer p c a → a ≡ Accepted }
{
    answered_so()
}
