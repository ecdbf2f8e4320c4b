//! Whether a certificate has an interpretation that meets the axioms.
ghost use Rattle.std.specs.Prelude.{◌≡◌, ◌↔◌, true, Some, IfOk};
ghost use Rattle.bg_ast.specs.Views.{program_of};
ghost use Rattle.bg_ast.specs.Meaning.{meaning_of};
ghost use Rattle.bg_opened.specs.Openable.{IsOpenable};
ghost use Rattle.bg_expanded.specs.Chains.{most_bodies};
ghost use Rattle.bg_certtext.specs.Views.{interp_of, cert_of};
ghost use Rattle.bg_certtext.specs.Spellable.{is_interp, IsSpellable};
ghost use Rattle.bg_confirm.specs.Met.{IsMet};
ghost use Rattle.bg_confirm.specs.Accepted.{IsInterpMet};

use crate::ending::{ending_from, is_failure};
use crate::functions::functions_fit;
use crate::names::are_for;
use crate::tables::tables_by;
use crate::values::{are_given, kinds_in, values_in};
use bg_ast::resolved::Resolved;
use bg_certtext::{CertText, Interp};
use bg_opening::axiom_program;
use bg_opening::laws::written_axiom_programs_are_those_of_the_meaning;
use std::alloc::{AllocError, Global};

/// How deep bodies of functions are put in.
const DEPTH: usize = 16;

/// Whether these are values of the constants and tables of the functions without a body, by name and type, from which the axioms' own
/// program fails at its place.
fn are_met(alloc: Global, program: &Resolved, interp: &Interp) -> Result<bool, AllocError>
    requires openable { IsOpenable most_bodies (meaning_of (program_of program.now)) }
    requires spelled { is_interp (Some (interp_of interp.now)) ≡ true }
    ensures { IfOk result (λ yes. yes ≡ true ↔ IsMet (program_of program.now) (interp_of interp.now)) }
{
    written_axiom_programs_are_those_of_the_meaning();
    if !are_for(&program.constants, &interp.constants) {
        return Ok(false);
    }
    if !functions_fit(alloc, &program.types, &program.functions, &interp.functions)? {
        return Ok(false);
    }
    let tables = tables_by(alloc, program, &interp.functions)?;
    let axioms = axiom_program(alloc, DEPTH, program)?;
    let kinds = kinds_in(alloc, &axioms)?;
    if !are_given(&program.types, &kinds, &interp.constants) {
        return Ok(false);
    }
    let values = values_in(alloc, &kinds, &interp.constants)?;
    let ending = ending_from(alloc, &axioms, &tables, &values)?;
    Ok(is_failure(ending))
}

/// Whether a certificate has an interpretation, one that meets the axioms.
pub fn is_interp_met(alloc: Global, program: &Resolved, cert: &CertText) -> Result<bool, AllocError>
    requires openable { IsOpenable most_bodies (meaning_of (program_of program.now)) }
    requires spellable { IsSpellable (cert_of cert.now) }
    ensures { IfOk result (λ yes. yes ≡ true ↔ IsInterpMet (program_of program.now) (cert_of cert.now)) }
{
    match &cert.interp {
        None => Ok(false),
        Some(interp) => are_met(alloc, program, interp),
    }
}
