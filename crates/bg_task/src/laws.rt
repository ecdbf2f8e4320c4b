//! Laws of places' clauses, which are proved of the definitions alone.
ghost use Rattle.std.specs.Prelude.{◌≡◌, ◌⊎◌, ℕ, ℤ, pos, Bool, true, List, [], Some, slice_get};
ghost use Rattle.bg_base.specs.declared.exact.OutOfRange.{OutOfRange};
ghost use Rattle.bg_ast.specs.Syntax.{Prog};
ghost use Rattle.bg_ast.specs.Execution.{Interp, State, Choice, Place};
ghost use Rattle.bg_sense.specs.Typed.{IsTyped};
ghost use Rattle.bg_sense.specs.Claims.{Fails};
ghost use Rattle.bg_formula.specs.Meaning.{AtomsAgree};
ghost use Rattle.bg_cert.specs.Certs.{CertOf, Accepts, uses};
ghost use Rattle.bg_cert.specs.Walks.{has, no_instance};
ghost use Rattle.bg_fits.specs.Valued.{is_over_values};
ghost use Rattle.bg_ast.specs.Values.{Ty};
ghost use Rattle.bg_terms.specs.Terms.{Term};
ghost use Rattle.bg_numbered.specs.Lines.{Line};
ghost use Rattle.bg_termed.specs.Lined.{lined_behind, lined_sorts};
ghost use Rattle.bg_formula.specs.Formulas.{Formula};
ghost use Rattle.bg_task.specs.Cuts.{HasOwnClauses};
ghost use Rattle.bg_task.specs.Ways.{LiesOnWay};
ghost use Rattle.bg_task.specs.Targets.{targets_of};
ghost use Rattle.bg_task.specs.Certified.{HasCertificateOf, HasOutside};

use bg_cert::laws::{accepted_has_no_valuation, accepted_where_used};
use bg_clause::laws::atoms_of_clauses;
use bg_passive::equations::equations_deny_failing_walks;
use bg_passive::laws::{arrivals_fit, passive_blocks_fail_alike};
use bg_sense::laws::typed_programs_have_typed_bodies;
use bg_slice::laws::slices_use_alike;
use bg_termed::laws::{
    denied_passive_blocks_have_lined_valuations, passive_blocks_have_terms,
    programs_over_values_are_tabled,
};

/// A place whose clauses, behind whatever lines, have a certificate has no failing run, under any set that has what the certificate uses.
pub fn proved_places_do_not_fail()
    ensures { (p : Prog) (set other : ℕ → Bool) (t : Place) (lines : List Line) (cert : CertOf) → IsTyped p → is_over_values p ≡ true →
        HasCertificateOf p set t lines cert → ((c : ℕ) → uses cert.nodes c ≡ true → other c ≡ true) →
        (i : Interp) (s : State) (choices : List Choice) → Fails p other t i s choices → ⊥ }
{
    typed_programs_have_typed_bodies();
    passive_blocks_fail_alike();
    arrivals_fit();
    equations_deny_failing_walks();
    programs_over_values_are_tabled();
    passive_blocks_have_terms();
    denied_passive_blocks_have_lined_valuations();
    accepted_has_no_valuation();
    accepted_where_used();
    atoms_of_clauses()
}

/// A place whose clauses, behind whatever lines, accept a certificate has no failing run, wherever the certificate is from.
pub fn accepted_places_do_not_fail()
    ensures { (p : Prog) (set : ℕ → Bool) (t : Place) (lines : List Line) (f : Formula) (cert : CertOf) → IsTyped p → is_over_values p ≡ true →
        HasOwnClauses p t lines f → AtomsAgree cert.table → Accepts f set no_instance cert →
        (i : Interp) (s : State) (choices : List Choice) → Fails p set t i s choices → ⊥ }
{
    typed_programs_have_typed_bodies();
    passive_blocks_fail_alike();
    arrivals_fit();
    equations_deny_failing_walks();
    programs_over_values_are_tabled();
    passive_blocks_have_terms();
    denied_passive_blocks_have_lined_valuations();
    accepted_has_no_valuation();
    accepted_where_used();
    atoms_of_clauses()
}

/// An operation for which a place has no clauses lies on a way to the place: from the entry along some edges of the implementation's
/// flat blocks, behind the lines, comes a command with a relation in whose linear forms it leaves 128 bits, and this command or one
/// behind it is the place's check.
pub fn operations_of_forms_lie_on_ways()
    ensures { (p : Prog) (t : Place) (lines : List Line) (o : OutOfRange) (h : HasOutside p t lines o) →
        LiesOnWay (lined_sorts p t.implementation h.implementation h.procedure lines) (lined_behind p t.implementation h.implementation h.procedure lines) t.spot o }
{}

/// A place has one list of clauses behind lines, or an operation for which it has none.
pub fn a_place_has_one_list_of_clauses()
    ensures one { (p : Prog) (t : Place) (lines : List Line) (f g : Formula) → HasOwnClauses p t lines f → HasOwnClauses p t lines g → f ≡ g }
    ensures none { (p : Prog) (t : Place) (lines : List Line) (f : Formula) (o : OutOfRange) → HasOwnClauses p t lines f → HasOutside p t lines o → ⊥ }
{
    slices_use_alike()
}

/// Where there are no terms all targets are 0.
pub fn without_terms_targets_are_zero()
    ensures { (tys : List Ty) (k : ℕ) (z : ℤ) → slice_get (targets_of tys []) k ≡ Some z → z ≡ pos 0 }
{}

/// No two incarnations or terms have one target, but for 0.
pub fn targets_differ()
    ensures { (tys : List Ty) (ts : List Term) (i j : ℕ) (z : ℤ) → slice_get (targets_of tys ts) i ≡ Some z → slice_get (targets_of tys ts) j ≡ Some z → (z ≡ pos 0) ⊎ (i ≡ j) }
{}
