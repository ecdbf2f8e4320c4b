//! Commands.
ghost use Rattle.std.specs.Prelude.{◌≡◌, map, IfOk};
ghost use Rattle.bg_ast.specs.Meaning as m;
ghost use Rattle.bg_ast.specs.Views.{program_of, exs_in, target_of};
ghost use Rattle.bg_blocks.specs.Views.{cmd_of, target_variable};
ghost use Rattle.bg_scalar.specs.Lists.{worths};
ghost use Rattle.bg_replay.specs.Moments.{seen_at};
ghost use Rattle.bg_replay.specs.Acts.{acts, assigned};
ghost use Rattle.bg_replay.specs.Said.{on_said};
ghost use Rattle.bg_replay.specs.Ways.{acts_each};
ghost use Rattle.bg_replay.specs.Views.{moment_of, around_of, said_of};

use crate::call::call;
use crate::clauses::{assumed, check, suppose};
use crate::ending::{Ending, Step};
use crate::moment::{Around, Moment, forget, put_targets, seen};
use crate::values::values_for;
use bg_ast::resolved::{Expr, Target};
use bg_blocks::Cmd;
use bg_scalar::{ListWorth, worth};
use std::alloc::AllocError;

/// An assignment: all right sides are read before any variable changes.
fn assign(
    around: Around<'_>,
    moment: &mut Moment<'_>,
    targets: &[Target],
    es: &[Expr],
) -> Result<Step, AllocError>
    ensures { IfOk result (λ step. on_said (said_of step) (moment_of moment.new) ≡ assigned (worths (m.values_of (map target_of targets.now) (exs_in es.now)) (seen_at (around_of around.entry) (moment_of moment.old))) (map target_variable (map target_of targets.now)) (moment_of moment.old)) }
{
    match values_for(around.alloc, seen(around, moment), targets, es)? {
        ListWorth::Leave(o) => Ok(Step::Over(Ending::OutOfRange(o))),
        ListWorth::NoValues => Ok(Step::Over(Ending::NoValues)),
        ListWorth::Are(made) => {
            put_targets(around.alloc, moment, targets, &made)?;
            Ok(Step::Goes)
        }
    }
}

/// A command.
#[tactic(auto, using(crate::proofs::Plans::assumes_one))]
fn command(around: Around<'_>, moment: &mut Moment<'_>, k: &Cmd<'_>) -> Result<Step, AllocError>
    ensures { IfOk result (λ step. on_said (said_of step) (moment_of moment.new) ≡ acts (around_of around.entry) (cmd_of (program_of around.entry.program.now) k.now) (moment_of moment.old)) }
{
    match k {
        Cmd::Check(group, ks) => check(around, seen(around, moment), *group, ks),
        Cmd::Suppose(which, ks) => suppose(around, seen(around, moment), *which, ks),
        Cmd::Assume(e) => Ok(assumed(worth(around.alloc, seen(around, moment), e)?)),
        Cmd::Forget(xs) => forget(around, moment, xs),
        Cmd::Put(targets, es) => assign(around, moment, targets, es),
        Cmd::Perform(k, q, xs) => call(around, moment, k, q, xs),
        Cmd::Finish => Ok(Step::Over(Ending::Ended)),
    }
}

/// Commands, in order.
pub fn commands(
    around: Around<'_>,
    moment: &mut Moment<'_>,
    ks: &[Cmd<'_>],
) -> Result<Step, AllocError>
    ensures { IfOk result (λ step. on_said (said_of step) (moment_of moment.new) ≡ acts_each (around_of around.entry) (map (cmd_of (program_of around.entry.program.now)) ks.now) (moment_of moment.old)) }
{
    for k in ks {
        match command(around, moment, k)? {
            Step::Goes => {}
            Step::Over(e) => return Ok(Step::Over(e)),
        }
    }
    Ok(Step::Goes)
}
