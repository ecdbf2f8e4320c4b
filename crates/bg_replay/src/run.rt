//! Runs of blocks.
ghost use Rattle.std.specs.Prelude.{◌≡◌, [], ◌∷◌, map, IfOk};
ghost use Rattle.bg_ast.specs.Meaning as m;
ghost use Rattle.bg_ast.specs.Views.{program_of, guard_of};
ghost use Rattle.bg_blocks.specs.Views.{exit_of, block_of};
ghost use Rattle.bg_replay.specs.Acts.{moved};
ghost use Rattle.bg_replay.specs.Moments as spec;
ghost use Rattle.bg_replay.specs.Ways.{branched, branch_to, test_to, decided, leaves, runs};
ghost use Rattle.bg_flow.specs.Blocks.{Leap};
ghost use Rattle.bg_scalar.specs.Views.{worth_in};
ghost use Rattle.bg_replay.specs.Views.{moment_of, around_of, said_by, way_of};

use crate::command::commands;
use crate::ending::{Ending, Step, Way};
use crate::moment::{Around, Moment, rest_of, seen, take_branch};
use bg_ast::resolved::Guard;
use bg_blocks::{Block, Exit};
use bg_scalar::{Worth, truth, worth};
use std::alloc::AllocError;

/// The branch that is chosen next, of these.
fn branch(moment: &mut Moment<'_>, ks: &[usize]) -> Way
    ensures { way_of result (moment_of moment.new) ≡ branch_to (branched (moment_of moment.old).choices) ks.now (moved (moment_of moment.old)) }
{
    match take_branch(moment) {
        None => Way::Over(Ending::BadChoice),
        Some(j) => match ks.get(j as usize) {
            None => Way::Over(Ending::BadChoice),
            Some(k) => Way::To(*k),
        },
    }
}

/// What is tested decides between two ways.
#[tactic(auto, using(crate::proofs::Truths::way_forms))]
fn tested(value: Worth<'_>, on: usize, off: usize) -> Way
    ensures { (m : spec.Moment) → way_of result m ≡ test_to (worth_in value.entry) on off m }
{
    match value {
        Worth::Leaves(o) => Way::Over(Ending::OutOfRange(o)),
        Worth::NoValue => Way::Over(Ending::NoValues),
        Worth::Is(x) => match truth(&x) {
            None => Way::Over(Ending::NoValues),
            Some(true) => Way::To(on),
            Some(false) => Way::To(off),
        },
    }
}

/// A guard decides between two ways.
fn decide(
    around: Around<'_>,
    moment: &mut Moment<'_>,
    guard: &Guard,
    on: usize,
    off: usize,
) -> Result<Way, AllocError>
    ensures { IfOk result (λ way. way_of way (moment_of moment.new) ≡ decided (around_of around.entry) (m.guard_of (guard_of guard.now)) on off (moment_of moment.old)) }
{
    match guard {
        Guard::Star => Ok(branch(moment, &[on, off])),
        Guard::Test(e) => {
            let value = worth(around.alloc, seen(around, moment), e)?;
            Ok(tested(value, on, off))
        }
    }
}

/// One of these blocks, or the next one where there are none.
#[tactic(auto, using(crate::proofs::Runs::leap_forms))]
fn leap(around: Around<'_>, moment: &mut Moment<'_>, ks: &[usize]) -> Way
    ensures { way_of result (moment_of moment.new) ≡ leaves (around_of around.entry) (Leap ks.now) (moment_of moment.old) }
{
    match ks.split_first() {
        None => Way::To(0),
        Some((k, more)) => {
            if more.is_empty() {
                Way::To(*k)
            } else {
                branch(moment, ks)
            }
        }
    }
}

/// Where a block leads.
fn leave(around: Around<'_>, moment: &mut Moment<'_>, exit: &Exit<'_>) -> Result<Way, AllocError>
    ensures { IfOk result (λ way. way_of way (moment_of moment.new) ≡ leaves (around_of around.entry) (exit_of exit.now) (moment_of moment.old)) }
{
    match exit {
        Exit::Leap(ks) => Ok(leap(around, moment, ks)),
        Exit::Either(guard, on, off) => decide(around, moment, guard, *on, *off),
    }
}

/// The run of blocks, from the first one.
#[tactic(auto, using(crate::proofs::Runs::run_forms))]
pub fn run(
    around: Around<'_>,
    moment: &mut Moment<'_>,
    blocks: &[Block<'_>],
) -> Result<Ending, AllocError>
    ensures { IfOk result (λ ending. said_by ending ≡ runs (around_of around.entry) 0 (map (block_of (program_of around.entry.program.now)) blocks.now) (moment_of moment.old)) }
{
    let mut rest = blocks;
    while let Some((b, after)) = rest.split_first() {
        match commands(around, moment, &b.cmds)? {
            Step::Over(e) => return Ok(e),
            Step::Goes => {}
        }
        match leave(around, moment, &b.exit)? {
            Way::Over(e) => return Ok(e),
            Way::To(k) => rest = rest_of(after, k),
        }
    }
    Ok(Ending::Ended)
}
