//! The blocks of statements, from the last one on.
ghost use Rattle.std.specs.Prelude.{◌≡◌, ℕ, false, List, length, map, OnOk};
ghost use Rattle.bg_ast.specs.Syntax as s;
ghost use Rattle.bg_ast.specs.Resolved as r;
ghost use Rattle.bg_ast.specs.Meaning as m;
ghost use Rattle.bg_ast.specs.Views.{program_of, st_of, sts_in, arms_from, arm_view, guard_of, clause_of};
ghost use Rattle.bg_flow.specs.Core.{Core, Choose, desugar};
ghost use Rattle.bg_blocks.specs.Callees.{IsModified};
ghost use Rattle.bg_blocks.specs.Emitted.{State, Emits, marked_each};
ghost use Rattle.bg_blocks.specs.EmittedViews.{state_of, EmitsBody, frame_of};

use crate::branches::{Head, mark_behind, turn_of_loop};
use crate::emit::{Emitted, mark};
use crate::jumps::{call, finish, jump, leave};
use crate::sides::{close_loop, decide, skip_side};
use crate::simple::{assertion, assignment, assumption, havoc, label_key};
use bg_ast::resolved::{Arm, Clause, Guard, Resolved, Stmt, Variable};
use bg_changes::targets;
use std::alloc::{AllocError, Global};

/// What bodies are read with: the program, what each of its procedures modifies, and how many variables the frame has.
#[derive(Clone, Copy)]
pub struct Around<'p> {
    pub alloc: Global,
    pub program: &'p Resolved,
    pub callees: &'p [Vec<Variable>],
    pub frame: usize,
}

/// A label.
fn label(state: &mut Emitted<'_>, l: u32) -> Result<(), AllocError>
    ensures { OnOk result ((p : r.Program) (frame : ℕ) → EmitsBody p frame (s.Label l) state.old state.new) }
{
    mark(state, label_key(l))
}

/// Behind so many conditionals with numbers from this one on lies what is there.
fn mark_arms(state: &mut Emitted<'_>, number: u32, count: usize) -> Result<(), AllocError>
    ensures { OnOk result ((p : r.Program) → state_of p state.new ≡ marked_each number count (state_of p state.old)) }
{
    for i in 0..count {
        mark_behind(state, u128::from(number) + i as u128)?;
    }
    Ok(())
}

/// One arm in front of what it skips, where so many blocks and marks were there before that.
#[cycle(stmts)]
fn arm<'p>(
    around: Around<'p>,
    state: &mut Emitted<'p>,
    start: usize,
    first: usize,
    a: &'p Arm,
) -> Result<(), AllocError>
    requires { IsModified (program_of around.program.now) around.callees.now }
    ensures { OnOk result ((before : State) (b : Core) (rs : List r.Declared) → length rs ≡ around.entry.frame → before.takes_in ≡ false → length before.blocks ≡ start → length before.undo ≡ first →
        Emits b before (state_of (program_of around.entry.program.now) state.old) →
        Emits (Choose (m.guard_of (guard_of a.now.guard)) (desugar (m.meaning_of (program_of around.entry.program.now)) (frame_of (program_of around.entry.program.now) rs) (m.sts_of (sts_in a.now.body.items))) b) before (state_of (program_of around.entry.program.now) state.new)) }
{
    let from = state.blocks.len();
    skip_side(around.alloc, state, start, first)?;
    stmts(around, state, &a.body)?;
    decide(around.alloc, state, &a.guard, from, first)
}

/// A chain of arms, and what stands behind the last `else`.
#[cycle(stmts)]
fn branch<'p>(
    around: Around<'p>,
    state: &mut Emitted<'p>,
    number: u32,
    arms: &'p [Arm],
    otherwise: &'p [Stmt],
) -> Result<(), AllocError>
    requires { IsModified (program_of around.program.now) around.callees.now }
    ensures { OnOk result (EmitsBody (program_of around.entry.program.now) around.entry.frame (m.arms_of number (arms_from (map arm_view arms.now)) (m.sts_of (sts_in otherwise.now))) state.old state.new) }
{
    let start = state.blocks.len();
    let first = state.marks.undo.len();
    mark_arms(state, number, arms.len())?;
    stmts(around, state, otherwise)?;
    let mut i = arms.len();
    while i > 0 {
        i -= 1;
        arm(around, state, start, first + i + 1, &arms[i])?;
    }
    Ok(())
}

/// A loop.
#[cycle(stmts)]
fn turns<'p>(
    around: Around<'p>,
    state: &mut Emitted<'p>,
    number: u32,
    guard: &'p Guard,
    invariants: &'p [Clause],
    body: &'p [Stmt],
) -> Result<(), AllocError>
    requires { IsModified (program_of around.program.now) around.callees.now }
    ensures { OnOk result (EmitsBody (program_of around.entry.program.now) around.entry.frame (s.While number (m.guard_of (guard_of guard.now)) (map m.clause_of (map clause_of invariants.now)) (m.sts_of (sts_in body.now))) state.old state.new) }
{
    mark_behind(state, u128::from(number))?;
    let start = state.blocks.len();
    let first = state.marks.undo.len();
    turn_of_loop(around.alloc, state, invariants)?;
    stmts(around, state, body)?;
    let forgotten = targets(around.alloc, around.program, around.frame, body)?;
    let head = Head { guard, invariants };
    close_loop(around.alloc, state, head, forgotten, start, first)
}

/// A statement.
#[tactic(auto, using(crate::proofs::Forms::st_forms))]
#[cycle(stmts)]
fn stmt<'p>(around: Around<'p>, state: &mut Emitted<'p>, a: &'p Stmt) -> Result<(), AllocError>
    requires { IsModified (program_of around.program.now) around.callees.now }
    ensures { OnOk result (EmitsBody (program_of around.entry.program.now) around.entry.frame (m.st_of (st_of a.now)) state.old state.new) }
{
    match a {
        Stmt::Label(l) => label(state, *l),
        Stmt::Assert(k) => assertion(around.alloc, state, k),
        Stmt::Assume(e) => assumption(around.alloc, state, e),
        Stmt::Havoc(xs) => havoc(around.alloc, state, xs),
        Stmt::Assign(_, ts, es) => assignment(around.alloc, state, ts, es),
        Stmt::Invoke(k) => call(around.alloc, around.program, around.callees, state, k),
        Stmt::If(n, arms, otherwise) => branch(around, state, *n, arms, otherwise),
        Stmt::While(n, _, g, is, body) => turns(around, state, *n, g, is, body),
        Stmt::Break(n) => leave(around.alloc, state, *n),
        Stmt::Goto(ls) => jump(around.alloc, state, ls),
        Stmt::Return => finish(around.alloc, state),
    }
}

/// The blocks of statements in front of those that were there.
#[cycle(stmts)]
pub fn stmts<'p>(
    around: Around<'p>,
    state: &mut Emitted<'p>,
    ss: &'p [Stmt],
) -> Result<(), AllocError>
    requires { IsModified (program_of around.program.now) around.callees.now }
    ensures { OnOk result (EmitsBody (program_of around.entry.program.now) around.entry.frame (m.sts_of (sts_in ss.now)) state.old state.new) }
{
    let mut i = ss.len();
    while i > 0 {
        i -= 1;
        stmt(around, state, &ss[i])?;
    }
    Ok(())
}
