//! What an accepted certificate means, proved of the definitions alone.
ghost use Rattle.std.specs.Prelude.{◌≡◌, ◌<◌, ℕ, true, length};
ghost use Rattle.bg_ast.specs.Meaning.{meaning_of};
ghost use Rattle.bg_ast.specs.Resolved.{Program};
ghost use Rattle.bg_sense.specs.Typed.{IsTyped};
ghost use Rattle.bg_sense.specs.Claims.{IsSetOf, Inductive, Safe};
ghost use Rattle.bg_fits.specs.Valued.{is_over_values};
ghost use Rattle.bg_certtext.specs.Views.{CertOf};
ghost use Rattle.bg_accept.specs.Accepted.{retained_by, IsAccepted};
ghost use Rattle.bg_accept.specs.Answers.{AnswerOf, Accepted, IsAnswer};

use bg_places::laws::placed_are_places;
use bg_sense::laws::what_fails_at_no_place_is_safe;
use bg_task::laws::{a_place_has_one_list_of_clauses, accepted_places_do_not_fail};

/// Where a typed program over values accepts a certificate, the retained candidates are
/// an inductive set, and under it no execution of an implementation fails, of any number of steps.
pub fn accepted_programs_are_safe()
    ensures { (p : Program) (c : CertOf) → IsTyped (meaning_of p) → is_over_values (meaning_of p) ≡ true → IsAccepted p c →
        (IsSetOf (meaning_of p) (retained_by p c)) × (Inductive (meaning_of p) (retained_by p c)) × ((k : ℕ) → k < length p.implementations → Safe (meaning_of p) (retained_by p c) k) }
{
    accepted_places_do_not_fail();
    placed_are_places();
    what_fails_at_no_place_is_safe()
}

/// A certificate that is accepted isn't answered in another way.
pub fn accepted_certificates_are_answered_so()
    ensures { (p : Program) (c : CertOf) (a : AnswerOf) → IsAccepted p c → IsAnswer p c a → a ≡ Accepted }
{
    a_place_has_one_list_of_clauses()
}
