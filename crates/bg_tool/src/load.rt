//! The lines of `bench`.
ghost use Rattle.std.specs.Prelude.{◌≡◌, IsTrue, IfOk, IfErr};
ghost use Rattle.bg_front.specs.Programs.{IsRefused};
ghost use Rattle.bg_ends.specs.Statuses.{is_report};
ghost use Rattle.bg_tool.specs.Answers.{AreSome, IsBenched};

use crate::manner::{Manner, status_of};
use crate::outcome::outcome_on;
use bg_claims::Gate;
use bg_ends::Status;
use bg_front::ReadError as TextError;
use bg_told::{bench_text, word_of};
use std::thread::Threads;

/// The lines of `bench` on the program of a text, and the status that its verdicts give.
pub(crate) fn bench_on<'t, R: Threads + Sync, G: Gate>(
    how: &Manner<'_, R, G>,
    bytes: &'t [u8],
) -> Result<(Status, Vec<u8>), TextError<'t>>
    requires { AreSome how.now.workers }
    ensures lines { IfOk result (λ r. IsBenched how.now.asked bytes.now r.0 r.1.items) }
    ensures ends { IfOk result (λ r. IsTrue (is_report r.0)) }
    ensures refused { IfErr result (λ e. IsRefused how.now.asked.guess bytes.now e) }
{
    let outcome = outcome_on(how, bytes)?;
    match bench_text(how.alloc, how.asked.seed, how.asked.size, &outcome) {
        Ok(text) => Ok((status_of(word_of(&outcome)), text)),
        Err(_) => Err(TextError::Memory),
    }
}
