//! The blocks of an implementation.
ghost use Rattle.std.specs.Prelude.{◌≡◌, ◌+◌, List, Some, map, length, reverse, slice_get, OnOk, IfOk};
ghost use Rattle.bg_ast.specs.Resolved as r;
ghost use Rattle.bg_ast.specs.Meaning as m;
ghost use Rattle.bg_ast.specs.Execution.{AtReturn};
ghost use Rattle.bg_ast.specs.Views.{program_of, impl_of, proc_of, sts_in};
ghost use Rattle.bg_flow.specs.Core.{Do, desugar, demands, sayings, each_one};
ghost use Rattle.bg_flow.specs.Blocks.{blocks_of};
ghost use Rattle.bg_blocks.specs.Callees.{IsModified};
ghost use Rattle.bg_blocks.specs.Views.{clauses_in, block_of};
ghost use Rattle.bg_blocks.specs.Emitted.{pushed, closed, Emits};
ghost use Rattle.bg_blocks.specs.EmittedViews.{made_of, state_of, frame_of};
ghost use Rattle.bg_blocks.specs.Whole.{opening, closing, AreBlocks};

use crate::block::{Block, Cmd, Exit, Kept};
use crate::emit::{Emitted, push};
use crate::marks::Marks;
use crate::simple::{one, single};
use crate::stmts::{Around, stmts};
use bg_ast::resolved::{Implementation, Procedure, Resolved, Stmt, Variable};
use bg_places::Group;
use std::alloc::{AllocError, Global};

/// How many variables the frame of an implementation has; more than a number holds are more than memory holds.
fn frame_size(m: &Implementation, q: &Procedure) -> Result<usize, AllocError>
    ensures { IfOk result (λ n. n ≡ length q.now.params.items + (length q.now.results.items + length m.now.locals.items)) }
{
    match (q.params.len() + q.results.len()).checked_add(m.locals.len()) {
        Some(n) => Ok(n),
        None => Err(AllocError),
    }
}

/// The last block, which checks the postconditions. All jumps to the end lead there.
fn close<'p>(
    alloc: Global,
    state: &mut Emitted<'p>,
    number: usize,
    q: &'p Procedure,
) -> Result<(), AllocError>
    ensures { OnOk result ((p : r.Program) → state_of p state.new ≡ closed (pushed (closing number (clauses_in q.now.ensures_.items)) (state_of p state.old))) }
{
    let cmds = one(alloc, Cmd::Check(Group::Return(number), &q.ensures_))?;
    push(state, cmds, Exit::Leap(Vec::new(alloc)))?;
    state.takes_in = false;
    Ok(())
}

/// At first the preconditions are assumed.
fn open<'p>(alloc: Global, state: &mut Emitted<'p>, q: &'p Procedure) -> Result<(), AllocError>
    ensures { OnOk result ((p : r.Program) → Emits (Do (opening (clauses_in q.now.requires_.items))) (state_of p state.old) (state_of p state.new)) }
{
    let cmds = one(alloc, Cmd::Suppose(Kept::Each, &q.requires_))?;
    single(alloc, state, cmds)
}

/// The blocks of a body, with what is assumed at first and checked at the end.
fn emitted<'p>(
    around: Around<'p>,
    number: usize,
    q: &'p Procedure,
    body: &'p [Stmt],
) -> Result<Emitted<'p>, AllocError>
    requires { IsModified (program_of around.program.now) around.callees.now }
    ensures { IfOk result (λ made. (rs : List r.Declared) → length rs ≡ around.entry.frame →
        (state_of (program_of around.entry.program.now) made).blocks ≡ blocks_of (record { given = sayings each_one (clauses_in q.now.requires_.items); body = desugar (m.meaning_of (program_of around.entry.program.now)) (frame_of (program_of around.entry.program.now) rs) (m.sts_of (sts_in body.now)); wanted = demands (AtReturn number) (clauses_in q.now.ensures_.items) })) }
{
    let mut state = Emitted {
        blocks: Vec::new(around.alloc),
        takes_in: false,
        marks: Marks::new(around.alloc),
    };
    close(around.alloc, &mut state, number, q)?;
    stmts(around, &mut state, body)?;
    open(around.alloc, &mut state, q)?;
    Ok(state)
}

/// A block whose commands stand in their order.
fn finished(block: Block<'_>) -> Block<'_>
    ensures { (p : r.Program) → block_of p result ≡ made_of p block.entry }
{
    let mut made = block;
    made.cmds.reverse();
    made
}

/// Blocks that were made from the last one on, in their order.
fn in_order<'p>(alloc: Global, blocks: Vec<Block<'p>>) -> Result<Vec<Block<'p>>, AllocError>
    ensures { IfOk result (λ made. (p : r.Program) → map (block_of p) made.items ≡ reverse (map (made_of p) blocks.entry.items)) }
{
    let mut left = blocks;
    let mut made = Vec::new(alloc);
    while let Some(block) = left.pop() {
        made.push(finished(block))?;
    }
    Ok(made)
}

/// The blocks of an implementation of this procedure.
fn whole<'p>(
    around: Around<'p>,
    number: usize,
    m: &'p Implementation,
    q: &'p Procedure,
) -> Result<Vec<Block<'p>>, AllocError>
    requires modified { IsModified (program_of around.program.now) around.callees.now }
    requires frame { around.frame ≡ length q.now.params.items + (length q.now.results.items + length m.now.locals.items) }
    ensures { IfOk result (λ made. AreBlocks (program_of around.entry.program.now) number (impl_of m.now) (proc_of q.now) made.items) }
{
    let state = emitted(around, number, q, &m.body)?;
    in_order(around.alloc, state.blocks)
}

/// The blocks of the implementation with this number, where it and its procedure are there.
///
/// Only want of memory is an error.
pub fn blocks<'p>(
    alloc: Global,
    program: &'p Resolved,
    callees: &'p [Vec<Variable>],
    number: usize,
) -> Result<Vec<Block<'p>>, AllocError>
    requires { IsModified (program_of program.now) callees.now }
    ensures { IfOk result (λ made. (m : r.Impl) (q : r.Proc) → slice_get (program_of program.now).implementations number ≡ Some m → slice_get (program_of program.now).procedures m.procedure ≡ Some q → AreBlocks (program_of program.now) number m q made.items) }
{
    let Some(m) = program.implementations.get(number) else {
        return Ok(Vec::new(alloc));
    };
    let Some(q) = program.procedures.get(m.procedure as usize) else {
        return Ok(Vec::new(alloc));
    };
    let frame = frame_size(m, q)?;
    let around = Around {
        alloc,
        program,
        callees,
        frame,
    };
    whole(around, number, m, q)
}
