//! Inference of a program's candidates.
ghost use Rattle.std.specs.Prelude.{◌≡◌, ◌<◌, ◌≤◌, true, IfOk};
ghost use Rattle.bg_ast.specs.Meaning.{meaning_of};
ghost use Rattle.bg_ast.specs.Views.{program_of};
ghost use Rattle.bg_sense.specs.Typed.{IsTyped};
ghost use Rattle.bg_sense.specs.Resolved.{IsResolved};
ghost use Rattle.bg_fits.specs.Valued.{is_over_values};
ghost use Rattle.bg_houdini.specs.Outcomes.{IsTrueOutcome};

use crate::Outcome;
use crate::making::checker_of;
use crate::ordinary::judge_all;
use bg_ast::resolved::Resolved;
use bg_blocks::callees_of;
use bg_check::Effort;
use bg_claims::Gate;
use bg_faithful::laws::tables_meet_programs_over_values;
use std::alloc::{AllocError, Global};
use std::mem::forget;
use std::thread::Threads;

/// The candidates of a typed program over truth values, whole numbers, elements of user types and functions on them without a body that
/// hold together, inferred with `workers` workers in threads (C. Flanagan and K. R. M. Leino, Houdini, an annotation assistant for
/// ESC/Java, FME 2001): checks of places with a candidate drop what isn't proved, until what is left proves itself. Then each ordinary
/// place is checked under what is retained, in at most as many pieces as workers. In a search at most the budget's nodes count, and it
/// keeps at most its rows. Where certificates and causes aren't kept each place's are dropped as soon as the place is done. What is made
/// for the checks is left to the end of the process.
///
/// Only want of memory is an error; 2^32 places with a candidate count as such, and so do 2^32 incarnations, atoms or branches of an
/// implementation.
pub fn infer<R: Threads + Sync, G: Gate>(
    rt: &R,
    alloc: Global,
    program: &Resolved,
    effort: Effort,
    workers: u32,
    gate: &G,
) -> Result<Outcome, AllocError>
    requires typed { IsTyped (meaning_of (program_of program.now)) }
    requires scalars { is_over_values (meaning_of (program_of program.now)) ≡ true }
    requires resolved { IsResolved (meaning_of (program_of program.now)) }
    requires workers { (0 < workers) × (workers ≤ 16) }
    ensures { IfOk result (IsTrueOutcome effort.keeps effort.budget (program_of program.now)) }
{
    tables_meet_programs_over_values();
    let callees = callees_of(alloc, program)?;
    let checker = checker_of(rt, alloc, program, &callees, effort, workers)?;
    let inferred = bg_rounds::infer(rt, alloc, &checker, gate, workers)?;
    let verdicts = judge_all(rt, alloc, &checker, &inferred.retained, workers)?;
    forget(checker);
    Ok(Outcome { inferred, verdicts })
}
