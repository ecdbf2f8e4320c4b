//! Reports of programs, and programs with their retained annotations.
ghost use Rattle.std.specs.Prelude.{◌≡◌, ℕ, List, Bool, IsTrue, IfOk, IfErr};
ghost use Rattle.bg_ast.specs.Views.{program_of};
ghost use Rattle.bg_text.specs.Views.{decls_of};
ghost use Rattle.bg_front.specs.Programs.{IsProgramFrom, IsRefused};
ghost use Rattle.bg_keep.specs.Annotated.{annotated};
ghost use Rattle.bg_print.specs.Printed.{printed};
ghost use Rattle.bg_ends.specs.Statuses.{is_report};
ghost use Rattle.bg_tool.specs.Answers.{AreSome, IsReport, IsAnnotation};

use crate::manner::{Manner, status_of};
use crate::outcome::outcome_on;
use crate::report::text_of;
use bg_claims::Gate;
use bg_ends::Status;
use bg_front::laws::{a_text_has_one_program_or_one_refusal, programs_are_named};
use bg_front::{ReadError as TextError, Written, read_text};
use bg_keep::keep;
use bg_print::print;
use bg_told::word_of;
use bg_words::CandSet;
use std::alloc::{AllocError, Global};
use std::thread::Threads;

/// The report of a text, and the status that its verdicts give.
pub(crate) fn report_on<'t, R: Threads + Sync, G: Gate>(
    how: &Manner<'_, R, G>,
    bytes: &'t [u8],
) -> Result<(Status, Vec<u8>), TextError<'t>>
    requires { AreSome how.now.workers }
    ensures report { IfOk result (λ r. IsReport how.now.asked bytes.now r.0 r.1.items) }
    ensures ends { IfOk result (λ r. IsTrue (is_report r.0)) }
    ensures refused { IfErr result (λ e. IsRefused how.now.asked.guess bytes.now e) }
{
    let outcome = outcome_on(how, bytes)?;
    match text_of(how.alloc, &outcome, how.asked.history) {
        Ok(text) => Ok((status_of(word_of(&outcome)), text)),
        Err(_) => Err(TextError::Memory),
    }
}

/// The program of a text with these annotations kept, printed.
fn annotated(alloc: Global, written: Written, retained: &CandSet) -> Result<Vec<u8>, AllocError>
    ensures { IfOk result (λ text. (guess : Bool) (bytes : List ℕ) → IsProgramFrom guess bytes (decls_of written.tree.decls.items) (program_of written.typed.program) → text.items ≡ printed (annotated guess retained.now (decls_of written.tree.decls.items))) }
{
    let Written { tree, typed } = written;
    programs_are_named();
    let kept = keep(alloc, tree.decls, &typed.program, retained)?;
    print(alloc, &kept)
}

/// The program of a text with its retained annotations, printed, and the status that its verdicts give. Inference takes the program over,
/// so the text is read once more.
pub(crate) fn annotation_on<'t, R: Threads + Sync, G: Gate>(
    how: &Manner<'_, R, G>,
    bytes: &'t [u8],
) -> Result<(Status, Vec<u8>), TextError<'t>>
    requires { AreSome how.now.workers }
    ensures annotation { IfOk result (λ r. IsAnnotation how.now.asked bytes.now r.0 r.1.items) }
    ensures ends { IfOk result (λ r. IsTrue (is_report r.0)) }
    ensures refused { IfErr result (λ e. IsRefused how.now.asked.guess bytes.now e) }
{
    a_text_has_one_program_or_one_refusal();
    let outcome = outcome_on(how, bytes)?;
    let written = read_text(how.alloc, bytes, how.asked.guess)?;
    match annotated(how.alloc, written, &outcome.judged.inferred.retained) {
        Ok(text) => Ok((status_of(word_of(&outcome)), text)),
        Err(_) => Err(TextError::Memory),
    }
}
