//! The outcome of the program of a text.
ghost use Rattle.std.specs.Prelude.{◌≡◌, IfOk, IfErr};
ghost use Rattle.bg_front.specs.Programs.{IsRefused};
ghost use Rattle.bg_tool.specs.Answers.{AreSome, IsOutcomeOn, keeps_for};

use crate::manner::Manner;
use bg_check::Effort;
use bg_claims::Gate;
use bg_cli::Job;
use bg_front::{ReadError as TextError, read_program};
use bg_inference::laws::true_outcomes_are_sound;
use bg_inference::{Outcome, infer};
use bg_judged::laws::judged_programs_are_openable;
use std::thread::Threads;

/// Whether certificates and causes of places are kept.
fn keeps_for(job: Job) -> bool
    ensures { result ≡ keeps_for job }
{
    matches!(job, Job::Certify)
}

/// What the inference of the program of a text comes to, with certificates where these are asked for.
pub(crate) fn outcome_on<'t, R: Threads + Sync, G: Gate>(
    how: &Manner<'_, R, G>,
    bytes: &'t [u8],
) -> Result<Outcome, TextError<'t>>
    requires { AreSome how.now.workers }
    ensures outcome { IfOk result (λ o. IsOutcomeOn how.now.asked bytes.now o) }
    ensures refused { IfErr result (λ e. IsRefused how.now.asked.guess bytes.now e) }
{
    let typed = read_program(how.alloc, bytes, how.asked.guess)?;
    judged_programs_are_openable();
    true_outcomes_are_sound();
    let effort = Effort {
        budget: how.asked.budget,
        keeps: keeps_for(how.asked.job),
    };
    match infer(
        how.rt,
        how.alloc,
        typed.program,
        effort,
        how.workers,
        how.gate,
    ) {
        Ok(outcome) => Ok(outcome),
        Err(_) => Err(TextError::Memory),
    }
}
