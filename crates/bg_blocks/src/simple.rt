//! The blocks of statements without statements inside.
ghost use Rattle.std.specs.Prelude.{◌≡◌, ℕ, true, List, [], ◌∷◌, map, length, ◌<◌, ◌+◌, ◌^◌, OnOk, IfOk};
ghost use Rattle.bg_ast.specs.Syntax as s;
ghost use Rattle.bg_ast.specs.Resolved.{Program};
ghost use Rattle.bg_ast.specs.Meaning as m;
ghost use Rattle.bg_ast.specs.Views.{program_of, var_of, clause_of, ex_of, exs_in, placed_of, target_of, call_of};
ghost use Rattle.bg_sense.specs.Flow.{Point, ToLabel, Behind, ToEnd};
ghost use Rattle.bg_flow.specs.Core.{Do, To, Forget, Suppose};
ghost use Rattle.bg_blocks.specs.Callees.{IsModified};
ghost use Rattle.bg_blocks.specs.Marks.{key};
ghost use Rattle.bg_blocks.specs.Views.{cmd_of, target_variable};
ghost use Rattle.bg_blocks.specs.Emitted.{Emits, pushed, performed};
ghost use Rattle.bg_blocks.specs.EmittedViews.{state_of, EmitsBody};
ghost use Rattle.bg_flow.specs.Blocks.{Leap};

use crate::block::{Cmd, Exit, Kept};
use crate::emit::{Emitted, push, take_in};
use bg_ast::resolved::{Call, Clause, Expr, Placed, Procedure, Target, Variable};
use bg_places::Group;
use std::alloc::{AllocError, Global};

/// The key of a label.
pub fn label_key(label: u32) -> u128
    ensures { result ≡ key (ToLabel label) }
{
    2 * u128::from(label) + 1
}

/// The key of what stands behind the loop or conditional with this number.
pub fn behind_key(number: u128) -> u128
    requires { number < 2 ^ 64 + 2 ^ 32 }
    ensures { result ≡ key (Behind number) }
{
    2 * number + 2
}

/// A list of one.
pub fn one<T: Drop>(alloc: Global, x: T) -> Result<Vec<T>, AllocError>
    ensures { IfOk result (λ made. made.items ≡ x ∷ []) }
{
    let mut made = Vec::new(alloc);
    made.push(x)?;
    Ok(made)
}

/// Commands as a block that leads on.
fn alone<'p>(alloc: Global, state: &mut Emitted<'p>, cmds: Vec<Cmd<'p>>) -> Result<(), AllocError>
    ensures { OnOk result ((p : Program) → state_of p state.new ≡ pushed (record { cmds = map (cmd_of p) cmds.entry.items; exit = Leap (0 ∷ []) }) (state_of p state.old)) }
{
    let on = one(alloc, 0)?;
    push(state, cmds, Exit::Leap(on))
}

/// Commands in front of those of the first block, which takes them in.
fn lead<'p>(alloc: Global, state: &mut Emitted<'p>, cmds: Vec<Cmd<'p>>) -> Result<(), AllocError>
    requires { state.old.takes_in ≡ true }
    ensures { OnOk result ((p : Program) → state_of p state.new ≡ performed (map (cmd_of p) cmds.entry.items) (state_of p state.old)) }
{
    match state.blocks.pop() {
        Some(first) => {
            let more = take_in(first, cmds)?;
            state.blocks.push(more)?;
            Ok(())
        }
        None => alone(alloc, state, cmds),
    }
}

/// Commands: in front of those of the first block where it takes them in, and else as a block that leads on.
pub fn single<'p>(
    alloc: Global,
    state: &mut Emitted<'p>,
    cmds: Vec<Cmd<'p>>,
) -> Result<(), AllocError>
    ensures { OnOk result ((p : Program) → Emits (Do (map (cmd_of p) cmds.entry.items)) (state_of p state.old) (state_of p state.new)) }
{
    if state.takes_in {
        lead(alloc, state, cmds)
    } else {
        alone(alloc, state, cmds)
    }
}

/// An assertion.
pub fn assertion<'p>(
    alloc: Global,
    state: &mut Emitted<'p>,
    k: &'p Clause,
) -> Result<(), AllocError>
    ensures { OnOk result ((p : Program) (frame : ℕ) → EmitsBody p frame (s.Assert (m.clause_of (clause_of k.now))) state.old state.new) }
{
    let cmds = one(alloc, Cmd::Check(Group::Assert, std::slice::from_ref(k)))?;
    single(alloc, state, cmds)
}

/// An assumption.
pub fn assumption<'p>(alloc: Global, state: &mut Emitted<'p>, e: &'p Expr) -> Result<(), AllocError>
    ensures { OnOk result ((p : Program) (frame : ℕ) → EmitsBody p frame (s.Assume (m.ex_of (ex_of e.now))) state.old state.new) }
{
    let cmds = one(alloc, Cmd::Assume(e))?;
    single(alloc, state, cmds)
}

/// Variables by their places in the program.
fn variables(alloc: Global, xs: &[Placed]) -> Result<Vec<Variable>, AllocError>
    ensures { IfOk result (λ made. map var_of made.items ≡ map m.variable_of (map placed_of xs.now)) }
{
    let mut made = Vec::new(alloc);
    for x in xs {
        made.push(x.variable)?;
    }
    Ok(made)
}

/// What forgets variables: declarations say nothing more than a type.
fn forgetting<'p>(alloc: Global, xs: &[Placed]) -> Result<Vec<Cmd<'p>>, AllocError>
    ensures { IfOk result (λ made. (p : Program) → map (cmd_of p) made.items ≡ Forget (map m.variable_of (map placed_of xs.now)) ∷ Suppose [] ∷ []) }
{
    let forgotten = variables(alloc, xs)?;
    Ok(vec![in alloc; Cmd::Forget(forgotten), Cmd::Suppose(Kept::Each, &[])]?)
}

/// Variables that take any values.
pub fn havoc<'p>(alloc: Global, state: &mut Emitted<'p>, xs: &'p [Placed]) -> Result<(), AllocError>
    ensures { OnOk result ((p : Program) (frame : ℕ) → EmitsBody p frame (s.Havoc (map m.variable_of (map placed_of xs.now))) state.old state.new) }
{
    let cmds = forgetting(alloc, xs)?;
    single(alloc, state, cmds)
}

/// An assignment.
pub fn assignment<'p>(
    alloc: Global,
    state: &mut Emitted<'p>,
    targets: &'p [Target],
    values: &'p [Expr],
) -> Result<(), AllocError>
    ensures { OnOk result ((p : Program) (frame : ℕ) → EmitsBody p frame (s.Assign (map target_variable (map target_of targets.now)) (m.values_of (map target_of targets.now) (exs_in values.now))) state.old state.new) }
{
    let cmds = one(alloc, Cmd::Put(targets, values))?;
    single(alloc, state, cmds)
}
