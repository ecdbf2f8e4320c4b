//! Whether a program accepts a certificate.
ghost use Rattle.std.specs.Prelude.{◌≡◌, true, None, is_some, IfOk};
ghost use Rattle.bg_ast.specs.Meaning.{meaning_of};
ghost use Rattle.bg_ast.specs.Views.{program_of};
ghost use Rattle.bg_sense.specs.Typed.{IsTyped};
ghost use Rattle.bg_fits.specs.Valued.{is_over_values};
ghost use Rattle.bg_certtext.specs.Views.{cert_of};
ghost use Rattle.bg_certtext.specs.Spellable.{IsSpellable};
ghost use Rattle.bg_accept.specs.Names.{marks, unplaced};
ghost use Rattle.bg_accept.specs.Answers.{IsAnswer};
ghost use Rattle.bg_accept.specs.Views.{answer_of};
ghost use Rattle.bg_accept.specs.Reading.{AreTables};

use crate::answer::Answer;
use crate::extra::first_extra;
use crate::implementation::first_bare;
use crate::reading::{Reading, Tables, tables_of};
use crate::retained::{Retained, retained_names};
use bg_ast::resolved::Resolved;
use bg_certtext::CertText;
use std::alloc::{AllocError, Global};

/// The answer to a certificate whose axioms have an interpretation, and that retains this set of candidates, by the tables.
fn answer<'q, 'n, 'c>(
    alloc: Global,
    program: &'q Resolved,
    cert: &'q CertText<'c>,
    set: &'q [bool],
    tables: &'q Tables<'n>,
) -> Result<Answer<'c>, AllocError>
    requires typed { IsTyped (meaning_of (program_of program.now)) }
    requires scalars { is_over_values (meaning_of (program_of program.now)) ≡ true }
    requires spellable { IsSpellable (cert_of cert.now) }
    requires interp { is_some (cert_of cert.now).interp ≡ true }
    requires retained { unplaced (program_of program.now).candidates (cert_of cert.now).retained ≡ None }
    requires marked { set.now ≡ marks (program_of program.now).candidates (cert_of cert.now).retained }
    requires tables { AreTables (program_of program.now) (cert_of cert.now).sections tables.now }
    ensures { IfOk result (λ a. IsAnswer (program_of program.now) (cert_of cert.now) (answer_of a)) }
{
    let reading = Reading {
        program,
        set,
        sections: &cert.sections,
        tables,
    };
    if let Some(place) = first_bare(alloc, reading)? {
        return Ok(Answer::NotShown(place));
    }
    match first_extra(set, &tables.all, &cert.sections) {
        None => Ok(Answer::Accepted),
        Some((implementation, place)) => Ok(Answer::NotRequired(implementation, place)),
    }
}

/// The same, where the tables are made.
fn check_sections<'c>(
    alloc: Global,
    program: &Resolved,
    cert: &CertText<'c>,
    set: &[bool],
) -> Result<Answer<'c>, AllocError>
    requires typed { IsTyped (meaning_of (program_of program.now)) }
    requires scalars { is_over_values (meaning_of (program_of program.now)) ≡ true }
    requires spellable { IsSpellable (cert_of cert.now) }
    requires interp { is_some (cert_of cert.now).interp ≡ true }
    requires retained { unplaced (program_of program.now).candidates (cert_of cert.now).retained ≡ None }
    requires marked { set.now ≡ marks (program_of program.now).candidates (cert_of cert.now).retained }
    ensures { IfOk result (λ a. IsAnswer (program_of program.now) (cert_of cert.now) (answer_of a)) }
{
    let tables = tables_of(alloc, program, &cert.sections)?;
    answer(alloc, program, cert, set, &tables)
}

/// Whether a typed program over values accepts a certificate that has a text, or the
/// first reason why not. Takes time for each part of the program and of the text, and memory for one place's clauses at a time.
///
/// Only want of memory is an error; 2^32 incarnations and terms, or atoms, of an implementation count as such.
pub fn check<'c>(
    alloc: Global,
    program: &Resolved,
    cert: &CertText<'c>,
) -> Result<Answer<'c>, AllocError>
    requires typed { IsTyped (meaning_of (program_of program.now)) }
    requires scalars { is_over_values (meaning_of (program_of program.now)) ≡ true }
    requires spellable { IsSpellable (cert_of cert.now) }
    ensures { IfOk result (λ a. IsAnswer (program_of program.now) (cert_of cert.now) (answer_of a)) }
{
    if cert.interp.is_none() {
        return Ok(Answer::NoInterp);
    }
    match retained_names(alloc, &program.candidates, &cert.retained)? {
        Retained::Unplaced(name) => Ok(Answer::NotRetained(name)),
        Retained::Marks(set) => check_sections(alloc, program, cert, &set),
    }
}
