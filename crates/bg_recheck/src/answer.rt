//! From the bytes of a program and of a certificate to an answer.
ghost use Rattle.std.specs.Prelude.{◌≡◌, Err, IfOk, IfErr};
ghost use Rattle.bg_ast.specs.Meaning.{meaning_of};
ghost use Rattle.bg_ast.specs.Views.{program_of};
ghost use Rattle.bg_expanded.specs.Chains.{most_bodies};
ghost use Rattle.bg_opened.specs.Openable.{IsOpenable};
ghost use Rattle.bg_certtext.specs.Reading.{Reads};
ghost use Rattle.bg_accept.specs.Views.{answer_of};
ghost use Rattle.bg_recheck.specs.Rechecks.{status_for, IsTold, IsChecked};
ghost use Rattle.bg_recheck.specs.Views.{IsWhy};

use bg_accept::Answer;
use bg_ast::resolved::Resolved;
use bg_certtext::{ReadError as CertError, read};
use bg_confirm::laws::accepted_programs_are_safe;
use bg_confirm::{answer_text, check};
use bg_ends::Status;
use bg_front::{ReadError as TextError, Refusal, read_program};
use bg_judged::laws::judged_programs_are_openable;
use std::alloc::Global;

/// Why nothing is answered.
#[derive(Drop)]
pub(crate) enum Why<'t> {
    /// The program's text is refused.
    Program(Refusal<'t>),
    /// The certificate's text is of another version.
    Version,
    /// This line of the certificate's text, from 1, is the first against the grammar.
    BadLine(usize),
    /// Memory ran out.
    Memory,
}

/// The status of an answer.
fn status_of(answer: Answer<'_>) -> Status
    ensures { result ≡ status_for (answer_of answer.entry) }
{
    match answer {
        Answer::Accepted => Status::Verified,
        _ => Status::Refuted,
    }
}

/// What a program answers of a certificate's text, and the status.
fn told(
    alloc: Global,
    program: Resolved,
    certificate: &[u8],
) -> Result<(Status, Vec<u8>), CertError>
    requires openable { IsOpenable most_bodies (meaning_of (program_of program)) }
    ensures told { IfOk result (λ r. IsTold (program_of program) certificate.now r.0 r.1.items) }
    ensures refused { IfErr result (λ e. Reads certificate.now (Err e)) }
{
    let cert = read(alloc, certificate)?;
    let checked = check(alloc, program, &cert)?;
    let text = answer_text(alloc, &checked.opened, checked.answer)?;
    Ok((status_of(checked.answer), text))
}

/// What the program of these bytes answers of a certificate's text, and the status.
pub(crate) fn answer_on<'t>(
    alloc: Global,
    bytes: &'t [u8],
    certificate: &[u8],
) -> Result<(Status, Vec<u8>), Why<'t>>
    ensures answer { IfOk result (λ r. IsChecked bytes.entry.now certificate.now r.0 r.1.items) }
    ensures why { IfErr result (λ e. IsWhy bytes.entry.now certificate.now e) }
{
    let typed = match read_program(alloc, bytes, false) {
        Ok(typed) => typed,
        Err(TextError::Memory) => return Err(Why::Memory),
        Err(TextError::Refused(refusal)) => return Err(Why::Program(refusal)),
    };
    judged_programs_are_openable();
    accepted_programs_are_safe();
    match told(alloc, typed.program, certificate) {
        Ok((ends, text)) => Ok((ends, text)),
        Err(CertError::Memory) => Err(Why::Memory),
        Err(CertError::Version) => Err(Why::Version),
        Err(CertError::BadLine(n)) => Err(Why::BadLine(n)),
    }
}
