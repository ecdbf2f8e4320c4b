//! The parts of a loop and of a branch.
ghost use Rattle.std.specs.Prelude.{◌≡◌, ℕ, suc, ◌+◌, ◌-◌, ◌<◌, ◌^◌, List, [], ◌∷◌, map, length, OnOk, IfOk};
ghost use Rattle.bg_ast.specs.Syntax as s;
ghost use Rattle.bg_ast.specs.Resolved.{Program};
ghost use Rattle.bg_ast.specs.Meaning as m;
ghost use Rattle.bg_ast.specs.Views.{program_of, guard_of, clause_of, var_of};
ghost use Rattle.bg_sense.specs.Flow.{Point, Behind};
ghost use Rattle.bg_flow.specs.Core.{head_of, arrival, turn};
ghost use Rattle.bg_flow.specs.Blocks.{Leap, Either};
ghost use Rattle.bg_blocks.specs.Views.{cmd_of, clauses_in};
ghost use Rattle.bg_blocks.specs.Emitted.{pushed, marked_at};
ghost use Rattle.bg_blocks.specs.EmittedViews.{state_of};

use crate::block::{Cmd, Exit, Kept};
use crate::emit::{Emitted, mark, push};
use crate::simple::{behind_key, one};
use bg_ast::resolved::{Clause, Guard, Variable};
use bg_places::Group;
use std::alloc::{AllocError, Global};

/// Behind the loop or conditional with this number lies what is there.
pub fn mark_behind(state: &mut Emitted<'_>, number: u128) -> Result<(), AllocError>
    requires { number < 2 ^ 64 + 2 ^ 32 }
    ensures { OnOk result ((p : Program) → state_of p state.new ≡ marked_at (Behind number) (state_of p state.old)) }
{
    mark(state, behind_key(number))
}

/// A block that skips so many.
pub fn skip_branch(alloc: Global, state: &mut Emitted<'_>, count: usize) -> Result<(), AllocError>
    ensures { OnOk result ((p : Program) → state_of p state.new ≡ pushed (record { cmds = []; exit = Leap (count ∷ []) }) (state_of p state.old)) }
{
    let to = one(alloc, count)?;
    push(state, Vec::new(alloc), Exit::Leap(to))
}

/// A block that goes on where the guard holds, and else behind so many.
pub fn take_branch<'p>(
    alloc: Global,
    state: &mut Emitted<'p>,
    guard: &'p Guard,
    count: usize,
) -> Result<(), AllocError>
    ensures { OnOk result ((p : Program) → state_of p state.new ≡ pushed (record { cmds = []; exit = Either (m.guard_of (guard_of guard.now)) 0 count }) (state_of p state.old)) }
{
    push(state, Vec::new(alloc), Exit::Either(guard, 0, count))
}

/// The end of a turn: the invariants are checked, and the execution ends.
fn turned<'p>(alloc: Global, invariants: &'p [Clause]) -> Result<Vec<Cmd<'p>>, AllocError>
    ensures { IfOk result (λ made. (p : Program) (xs : List s.Var) → map (cmd_of p) made.items ≡ turn (head_of (clauses_in invariants.now) xs)) }
{
    Ok(vec![in alloc; Cmd::Check(Group::Turn, invariants), Cmd::Finish]?)
}

/// The block at the end of a turn.
pub fn turn_of_loop<'p>(
    alloc: Global,
    state: &mut Emitted<'p>,
    invariants: &'p [Clause],
) -> Result<(), AllocError>
    ensures { OnOk result ((p : Program) (xs : List s.Var) → state_of p state.new ≡ pushed (record { cmds = turn (head_of (clauses_in invariants.now) xs); exit = Leap (0 ∷ []) }) (state_of p state.old)) }
{
    let cmds = turned(alloc, invariants)?;
    let on = one(alloc, 0)?;
    push(state, cmds, Exit::Leap(on))
}

/// The arrival at a loop: the invariants are checked, the targets forgotten, and the invariants assumed.
fn arrived<'p>(
    alloc: Global,
    invariants: &'p [Clause],
    forgotten: Vec<Variable>,
) -> Result<Vec<Cmd<'p>>, AllocError>
    ensures { IfOk result (λ made. (p : Program) → map (cmd_of p) made.items ≡ arrival (head_of (clauses_in invariants.now) (map var_of forgotten.items))) }
{
    Ok(vec![in alloc;
        Cmd::Check(Group::Entry, invariants),
        Cmd::Forget(forgotten),
        Cmd::Suppose(Kept::Checked, invariants),
        Cmd::Suppose(Kept::Free, invariants),
    ]?)
}

/// What is written at the head of a loop.
#[derive(Clone, Copy)]
pub struct Head<'p> {
    pub guard: &'p Guard,
    pub invariants: &'p [Clause],
}

/// The head of a loop: behind its arrival a turn where the guard holds, and else behind so many.
pub fn head_of_loop<'p>(
    alloc: Global,
    state: &mut Emitted<'p>,
    head: Head<'p>,
    forgotten: Vec<Variable>,
    count: usize,
) -> Result<(), AllocError>
    ensures { OnOk result ((p : Program) → state_of p state.new ≡ pushed (record { cmds = arrival (head_of (clauses_in head.entry.invariants.now) (map var_of forgotten.items)); exit = Either (m.guard_of (guard_of head.entry.guard.now)) 0 count }) (state_of p state.old)) }
{
    let cmds = arrived(alloc, head.invariants, forgotten)?;
    push(state, cmds, Exit::Either(head.guard, 0, count))
}
