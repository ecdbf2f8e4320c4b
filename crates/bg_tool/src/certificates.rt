//! Certificates of programs.
ghost use Rattle.std.specs.Prelude.{◌≡◌, false, IsTrue, IfOk, IfErr};
ghost use Rattle.bg_front.specs.Programs.{IsRefused};
ghost use Rattle.bg_ends.specs.Statuses.{is_report};
ghost use Rattle.bg_cli.specs.declared.job.Job.TheVariants as job;
ghost use Rattle.bg_tool.specs.Answers.{AreSome, IsCertification};

use crate::manner::{Manner, status_of};
use crate::outcome::outcome_on;
use bg_certify::certificate_text;
use bg_certify::laws::{candidates_have_names_of_their_own, verified_programs_are_accepted};
use bg_claims::Gate;
use bg_ends::Status;
use bg_front::ReadError as TextError;
use bg_told::word_of;
use std::thread::Threads;

/// The certificate of the program of a text, and the status that its verdicts give.
pub(crate) fn certificate_on<'t, R: Threads + Sync, G: Gate>(
    how: &Manner<'_, R, G>,
    bytes: &'t [u8],
) -> Result<(Status, Vec<u8>), TextError<'t>>
    requires workers { AreSome how.now.workers }
    requires certifies { how.now.asked.job ≡ job.Certify }
    requires plain { how.now.asked.guess ≡ false }
    ensures certificate { IfOk result (λ r. IsCertification how.now.asked bytes.now r.0 r.1.items) }
    ensures ends { IfOk result (λ r. IsTrue (is_report r.0)) }
    ensures refused { IfErr result (λ e. IsRefused how.now.asked.guess bytes.now e) }
{
    candidates_have_names_of_their_own();
    verified_programs_are_accepted();
    let outcome = outcome_on(how, bytes)?;
    match certificate_text(how.alloc, &outcome) {
        Ok(text) => Ok((status_of(word_of(&outcome)), text)),
        Err(_) => Err(TextError::Memory),
    }
}
