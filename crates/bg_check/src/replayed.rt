//! The replay of a counterexample.
ghost use Rattle.std.specs.Prelude.{◌≡◌, List, true, IfOk};
ghost use Rattle.bg_ast.specs.Meaning.{meaning_of};
ghost use Rattle.bg_ast.specs.Views.{program_of};
ghost use Rattle.bg_sense.specs.Typed.{IsTyped};
ghost use Rattle.bg_places.specs.Views.{placed_of};
ghost use Rattle.bg_cert.specs.Walks.{has};
ghost use Rattle.bg_tree.specs.declared.outcome.Budget.{Budget};
ghost use Rattle.bg_fits.specs.Valued.{is_over_values};
ghost use Rattle.bg_check.specs.LeafRuns.{HasLeaf};
ghost use Rattle.bg_task.specs.Prepared.{IsPrepared};
ghost use Rattle.bg_numbered.specs.Lines.{Line};
ghost use Rattle.bg_check.specs.Verdicts.{IsFailure, HasTypes};
ghost use Rattle.bg_check.specs.Found.{IsFound, has_cert};

use crate::dropping::used_up;
use crate::found::Found;
use crate::verdict::Cause;
use bg_block_types::laws::blocks_are_typed;
use bg_model::Counterexample;
use bg_replay::laws::replays_are_induction_runs;
use bg_replay::{Code, Ending, Start, replay};
use bg_task::Question;
use std::alloc::{AllocError, Global};

/// A place is refuted by a run that fails there, that of a complete leaf of its clauses, unless an operation on its way leaves 128 bits;
/// choices that the run doesn't take are dropped.
pub fn replayed(
    alloc: Global,
    question: Question<'_, '_>,
    cex: Counterexample,
) -> Result<Found, AllocError>
    requires typed { IsTyped (meaning_of (program_of question.program.now)) }
    requires scalars { is_over_values (meaning_of (program_of question.program.now)) ≡ true }
    requires prepared { IsPrepared (program_of question.program.now) question.place.now.implementation question.prepared.now }
    requires fails { IsFailure (meaning_of (program_of question.program.now)) (has question.set.now) (placed_of question.place.now).place cex }
    requires types { HasTypes cex }
    ensures kept { IfOk result (λ found. has_cert found ≡ true) }
    ensures found { IfOk result (λ found. (left : Budget) (lines : List Line) → HasLeaf (meaning_of (program_of question.entry.program.now)) (has question.entry.set.now) (placed_of question.entry.place.now).place lines cex → IsFound left (meaning_of (program_of question.entry.program.now)) (has question.entry.set.now) (placed_of question.entry.place.now).place lines found) }
{
    blocks_are_typed();
    replays_are_induction_runs();
    let code = Code {
        program: question.program,
        blocks: &question.prepared.blocks,
        set: question.set,
    };
    let start = Start {
        tables: &cex.tables,
        globals: &cex.globals,
        frame: &cex.frame,
        choices: &cex.choices,
    };
    let ending = replay(alloc, code, question.place.implementation, start)?;
    match ending {
        Ending::OutOfRange(o) => Ok(Found::Unknown(Cause::Replay(cex, o))),
        Ending::Failed(_) => {
            let left = used_up(alloc, question, cex)?;
            Ok(Found::Refuted(left))
        }
        Ending::Ended => unreachable!(),
        Ending::Blocked => unreachable!(),
        Ending::BadChoice => unreachable!(),
        Ending::NoValues => unreachable!(),
    }
}
