//! Whether a program with constants, functions and axioms accepts a certificate.
ghost use Rattle.std.specs.Prelude.{◌≡◌, IfOk};
ghost use Rattle.bg_ast.specs.Meaning.{meaning_of};
ghost use Rattle.bg_ast.specs.Views.{program_of};
ghost use Rattle.bg_opened.specs.Openable.{IsOpenable};
ghost use Rattle.bg_expanded.specs.Chains.{most_bodies};
ghost use Rattle.bg_certtext.specs.Views.{cert_of};
ghost use Rattle.bg_certtext.specs.Spellable.{IsSpellable};
ghost use Rattle.bg_accept.specs.Views.{answer_of};
ghost use Rattle.bg_confirm.specs.Accepted.{judged_program, IsAnswer};

use crate::met::is_interp_met;
use bg_accept::Answer;
use bg_ast::resolved::Resolved;
use bg_certtext::CertText;
use bg_opened::laws::{opened_programs_are_over_values, written_programs_are_opened};
use bg_opening::open_program;
use std::alloc::{AllocError, Global};

/// How deep bodies of functions are put in.
const DEPTH: usize = 16;

/// The opened program, and what is answered.
#[derive(Drop)]
pub struct Checked<'c> {
    pub opened: Resolved,
    pub answer: Answer<'c>,
}

/// Whether a program accepts a certificate that has a text, or the first reason why not: first the values and tables that it gives
/// constants and functions are replayed through the axioms, within 128 bits; then the opened program, in which constants are variables,
/// bodies of functions are put in, 16 deep, and in front of each body it is assumed that unique constants differ, and the axioms, is asked
/// for the rest. No search is made.
///
/// Only want of memory is an error; what `bg_accept::check` and `bg_opening::open_program` count as such counts here too.
pub fn check<'c>(
    alloc: Global,
    program: Resolved,
    cert: &CertText<'c>,
) -> Result<Checked<'c>, AllocError>
    requires openable { IsOpenable most_bodies (meaning_of (program_of program)) }
    requires spellable { IsSpellable (cert_of cert.now) }
    ensures answer { IfOk result (λ a. IsAnswer (program_of program) (cert_of cert.now) (answer_of a.answer)) }
    ensures opened { IfOk result (λ a. program_of a.opened ≡ judged_program (program_of program)) }
{
    opened_programs_are_over_values();
    written_programs_are_opened();
    let met = is_interp_met(alloc, &program, cert)?;
    let opened = open_program(alloc, DEPTH, program)?;
    if !met {
        let answer = Answer::NoInterp;
        return Ok(Checked { opened, answer });
    }
    let answer = bg_accept::check(alloc, &opened, cert)?;
    Ok(Checked { opened, answer })
}
