//! The blocks of jumps and calls.
ghost use Rattle.std.specs.Prelude.{◌≡◌, ℕ, List, [], ◌∷◌, map, OnOk, IfOk};
ghost use Rattle.bg_ast.specs.Syntax as s;
ghost use Rattle.bg_ast.specs.Resolved.{Program};
ghost use Rattle.bg_ast.specs.Meaning as m;
ghost use Rattle.bg_ast.specs.Views.{program_of, call_of};
ghost use Rattle.bg_sense.specs.Flow.{Point, Behind, ToEnd};
ghost use Rattle.bg_sense.specs.Variables.{procedure_of};
ghost use Rattle.bg_flow.specs.Core.{To, to_each, calls_of};
ghost use Rattle.bg_flow.specs.Blocks.{to_points};
ghost use Rattle.bg_blocks.specs.Callees.{IsModified};
ghost use Rattle.bg_blocks.specs.Views.{cmd_of};
ghost use Rattle.bg_blocks.specs.Emitted.{Emits};
ghost use Rattle.bg_blocks.specs.EmittedViews.{state_of, ahead_in, label_in, EmitsBody};

use crate::block::{Cmd, Exit};
use crate::emit::{Emitted, ahead, push};
use crate::simple::{behind_key, label_key, one, single};
use bg_ast::resolved::{Call, Resolved, Variable};
use std::alloc::{AllocError, Global};

/// How far a label lies ahead.
#[tactic(auto, unfolding(crate::specs::EmittedViews::label_in))]
fn label_ahead(state: &Emitted<'_>, label: u32) -> usize
    ensures { result ≡ label_in state.now label }
{
    ahead(state, label_key(label))
}

/// How far it is to behind the loop or conditional with this number.
fn behind_ahead(state: &Emitted<'_>, number: u32) -> usize
    ensures { result ≡ ahead_in state.now (Behind number) }
{
    ahead(state, behind_key(u128::from(number)))
}

/// How far the end lies ahead.
fn end_ahead(state: &Emitted<'_>) -> usize
    ensures { result ≡ ahead_in state.now ToEnd }
{
    ahead(state, 0)
}

/// A block that leads to these.
fn leap(alloc: Global, state: &mut Emitted<'_>, to: Vec<usize>) -> Result<(), AllocError>
    ensures { OnOk result ((p : Program) (ps : List Point) → to.items ≡ to_points (ahead_in state.old) ps → Emits (To ps) (state_of p state.old) (state_of p state.new)) }
{
    push(state, Vec::new(alloc), Exit::Leap(to))
}

/// How far each label lies ahead.
fn each_ahead(alloc: Global, state: &Emitted<'_>, labels: &[u32]) -> Result<Vec<usize>, AllocError>
    ensures { IfOk result (λ to. to.items ≡ map (label_in state.now) labels.now) }
{
    let mut to = Vec::new(alloc);
    for l in labels {
        to.push(label_ahead(state, *l))?;
    }
    Ok(to)
}

/// How far the labels of a jump lie ahead; where there are none, the end.
fn jumps_to(alloc: Global, state: &Emitted<'_>, labels: &[u32]) -> Result<Vec<usize>, AllocError>
    ensures { IfOk result (λ to. to.items ≡ to_points (ahead_in state.now) (to_each labels.now)) }
{
    if labels.len() == 0 {
        one(alloc, end_ahead(state))
    } else {
        each_ahead(alloc, state, labels)
    }
}

/// A jump to one of these labels.
pub fn jump(alloc: Global, state: &mut Emitted<'_>, labels: &[u32]) -> Result<(), AllocError>
    ensures { OnOk result ((p : Program) (frame : ℕ) → EmitsBody p frame (s.Goto labels.now) state.old state.new) }
{
    let to = jumps_to(alloc, state, labels)?;
    leap(alloc, state, to)
}

/// A jump behind the loop or conditional with this number.
pub fn leave(alloc: Global, state: &mut Emitted<'_>, number: u32) -> Result<(), AllocError>
    ensures { OnOk result ((p : Program) (frame : ℕ) → EmitsBody p frame (s.Break number) state.old state.new) }
{
    let to = one(alloc, behind_ahead(state, number))?;
    leap(alloc, state, to)
}

/// A jump to the end.
pub fn finish(alloc: Global, state: &mut Emitted<'_>) -> Result<(), AllocError>
    ensures { OnOk result ((p : Program) (frame : ℕ) → EmitsBody p frame s.Return state.old state.new) }
{
    let to = one(alloc, end_ahead(state))?;
    leap(alloc, state, to)
}

/// What a call does, where its procedure is there.
fn performing<'p>(
    alloc: Global,
    program: &'p Resolved,
    callees: &'p [Vec<Variable>],
    k: &'p Call,
) -> Result<Vec<Cmd<'p>>, AllocError>
    requires { IsModified (program_of program.now) callees.now }
    ensures { IfOk result (λ made. map (cmd_of (program_of program.now)) made.items ≡ calls_of (m.meaning_of (program_of program.now)) (procedure_of (m.meaning_of (program_of program.now)) k.now.procedure) (m.call_of (call_of k.now))) }
{
    let at = k.procedure as usize;
    let Some(q) = program.procedures.get(at) else {
        return Ok(Vec::new(alloc));
    };
    let Some(xs) = callees.get(at) else {
        return Ok(Vec::new(alloc));
    };
    one(alloc, Cmd::Perform(k, q, xs))
}

/// A call.
pub fn call<'p>(
    alloc: Global,
    program: &'p Resolved,
    callees: &'p [Vec<Variable>],
    state: &mut Emitted<'p>,
    k: &'p Call,
) -> Result<(), AllocError>
    requires { IsModified (program_of program.now) callees.now }
    ensures { OnOk result ((frame : ℕ) → EmitsBody (program_of program.now) frame (s.Invoke (m.call_of (call_of k.now))) state.old state.new) }
{
    let cmds = performing(alloc, program, callees, k)?;
    single(alloc, state, cmds)
}
