//! What stands behind a side of a branch, in front of a branch and in front of a loop. The marks of what was made are taken back there.
ghost use Rattle.std.specs.Prelude.{◌≡◌, ℕ, length, map, OnOk};
ghost use Rattle.bg_ast.specs.Resolved.{Program};
ghost use Rattle.bg_ast.specs.Meaning as m;
ghost use Rattle.bg_ast.specs.Views.{guard_of, var_of};
ghost use Rattle.bg_flow.specs.Core.{Core, head_of};
ghost use Rattle.bg_blocks.specs.Views.{clauses_in};
ghost use Rattle.bg_blocks.specs.Emitted.{State, pushed, with_marks_of, Emits};
ghost use Rattle.bg_blocks.specs.Decided.{skip_block, branch_block, turn_block, head_block};
ghost use Rattle.bg_blocks.specs.EmittedViews.{state_of};

use crate::branches::{Head, head_of_loop, skip_branch, take_branch};
use crate::emit::{Emitted, go_back};
use bg_ast::resolved::{Guard, Variable};
use std::alloc::{AllocError, Global};

/// Skips what was made since there were so many blocks and marks.
pub fn skip_side(
    alloc: Global,
    state: &mut Emitted<'_>,
    start: usize,
    first: usize,
) -> Result<(), AllocError>
    ensures { OnOk result ((p : Program) (b : Core) (before : State) → length before.blocks ≡ start → length before.undo ≡ first → Emits b before (state_of p state.old) →
        state_of p state.new ≡ pushed (skip_block before (state_of p state.old)) (with_marks_of before (state_of p state.old))) }
{
    go_back(state, first)?;
    let made = state.blocks.len().saturating_sub(start);
    skip_branch(alloc, state, made)
}

/// Goes on where the guard holds, and else behind what was made since there were so many blocks. There were so many marks.
pub fn decide<'p>(
    alloc: Global,
    state: &mut Emitted<'p>,
    guard: &'p Guard,
    start: usize,
    first: usize,
) -> Result<(), AllocError>
    ensures { OnOk result ((p : Program) (a : Core) (off before : State) → length off.blocks ≡ start → length before.undo ≡ first → Emits a before (state_of p state.old) →
        state_of p state.new ≡ pushed (branch_block (m.guard_of (guard_of guard.now)) off (state_of p state.old)) (with_marks_of before (state_of p state.old))) }
{
    go_back(state, first)?;
    let made = state.blocks.len().saturating_sub(start);
    take_branch(alloc, state, guard, made)
}

/// The head of a loop whose turn was made since there were so many blocks and marks.
pub fn close_loop<'p>(
    alloc: Global,
    state: &mut Emitted<'p>,
    head: Head<'p>,
    forgotten: Vec<Variable>,
    start: usize,
    first: usize,
) -> Result<(), AllocError>
    ensures { OnOk result ((p : Program) (a : Core) (before : State) → length before.blocks ≡ start → length before.undo ≡ first → Emits a (pushed (turn_block (head_of (clauses_in head.entry.invariants.now) (map var_of forgotten.items))) before) (state_of p state.old) →
        state_of p state.new ≡ pushed (head_block (m.guard_of (guard_of head.entry.guard.now)) (head_of (clauses_in head.entry.invariants.now) (map var_of forgotten.items)) before (state_of p state.old)) (with_marks_of before (state_of p state.old))) }
{
    go_back(state, first)?;
    let made = state.blocks.len().saturating_sub(start);
    head_of_loop(alloc, state, head, forgotten, made)
}
