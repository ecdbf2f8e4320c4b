//! Choices that are left over.
ghost use Rattle.std.specs.Prelude.{◌≡◌, true, IfOk};
ghost use Rattle.bg_ast.specs.Meaning.{meaning_of};
ghost use Rattle.bg_ast.specs.Views.{program_of};
ghost use Rattle.bg_sense.specs.Typed.{IsTyped};
ghost use Rattle.bg_fits.specs.Valued.{is_over_values};
ghost use Rattle.bg_places.specs.Views.{placed_of};
ghost use Rattle.bg_cert.specs.Walks.{has};
ghost use Rattle.bg_check.specs.Dropped.{FailsWithin, IsDropped};
ghost use Rattle.bg_task.specs.Prepared.{IsPrepared};
ghost use Rattle.bg_check.specs.Verdicts.{IsUsed};

use bg_model::Counterexample;
use bg_replay::laws::replays_are_induction_runs;
use bg_replay::{Code, Ending, Start, replay};
use bg_task::Question;
use bg_termed::laws::programs_over_values_are_tabled;
use std::alloc::{AllocError, Global};

/// Drops the last choice where the run fails without it too, and says whether it did.
fn drop_last(
    alloc: Global,
    question: Question<'_, '_>,
    cex: &mut Counterexample,
) -> Result<bool, AllocError>
    requires typed { IsTyped (meaning_of (program_of question.program.now)) }
    requires scalars { is_over_values (meaning_of (program_of question.program.now)) ≡ true }
    requires prepared { IsPrepared (program_of question.program.now) question.place.now.implementation question.prepared.now }
    requires fails { FailsWithin (meaning_of (program_of question.program.now)) (has question.set.now) (placed_of question.place.now).place cex.old }
    ensures { IfOk result (λ dropped. IsDropped (meaning_of (program_of question.entry.program.now)) (has question.entry.set.now) (placed_of question.entry.place.now).place cex.old dropped cex.new) }
{
    replays_are_induction_runs();
    programs_over_values_are_tabled();
    let Some((_, front)) = cex.choices.split_last() else {
        return Ok(false);
    };
    let code = Code {
        program: question.program,
        blocks: &question.prepared.blocks,
        set: question.set,
    };
    let start = Start {
        tables: &cex.tables,
        globals: &cex.globals,
        frame: &cex.frame,
        choices: front,
    };
    let ending = replay(alloc, code, question.place.implementation, start)?;
    match ending {
        Ending::Failed(_) => {
            cex.choices.pop();
            cex.kinds.pop();
            Ok(true)
        }
        _ => Ok(false),
    }
}

/// The same run, with no choice left over.
pub fn used_up(
    alloc: Global,
    question: Question<'_, '_>,
    cex: Counterexample,
) -> Result<Counterexample, AllocError>
    requires typed { IsTyped (meaning_of (program_of question.program.now)) }
    requires scalars { is_over_values (meaning_of (program_of question.program.now)) ≡ true }
    requires prepared { IsPrepared (program_of question.program.now) question.place.now.implementation question.prepared.now }
    requires fails { FailsWithin (meaning_of (program_of question.program.now)) (has question.set.now) (placed_of question.place.now).place cex }
    ensures fails { IfOk result (λ made. FailsWithin (meaning_of (program_of question.entry.program.now)) (has question.entry.set.now) (placed_of question.entry.place.now).place made) }
    ensures used { IfOk result (λ made. IsUsed (meaning_of (program_of question.entry.program.now)) (has question.entry.set.now) (placed_of question.entry.place.now).place made) }
{
    let mut left = cex;
    while drop_last(alloc, question, &mut left)? {}
    Ok(left)
}
