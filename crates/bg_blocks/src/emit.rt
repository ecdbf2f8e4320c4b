//! Blocks that are made from the last one on.
ghost use Rattle.std.specs.Prelude.{◌≡◌, ◌-◌, ◌++◌, unwrap_or, map, length, take, drop, OnOk, IfOk};
ghost use Rattle.bg_ast.specs.Resolved.{Program};
ghost use Rattle.bg_sense.specs.Flow.{Point};
ghost use Rattle.bg_blocks.specs.Marks.{key, undone};
ghost use Rattle.bg_blocks.specs.MarkViews.{marked};
ghost use Rattle.bg_blocks.specs.Views.{cmd_of, exit_of};
ghost use Rattle.bg_blocks.specs.Emitted.{pushed, marked_at};
ghost use Rattle.bg_blocks.specs.EmittedViews.{made_of, state_of};

use crate::block::{Block, Cmd, Exit};
use crate::marks::Marks;
use std::alloc::{AllocError, Global};

/// The blocks so far, the last one first and the commands of each too, and where points lie: at so many blocks from the end. The first
/// block takes in commands where nothing but what stands in front leads to it.
#[derive(Drop)]
pub struct Emitted<'p> {
    pub blocks: Vec<Block<'p>>,
    pub takes_in: bool,
    pub marks: Marks,
}

/// One more block in front.
pub fn push<'p>(
    state: &mut Emitted<'p>,
    cmds: Vec<Cmd<'p>>,
    exit: Exit<'p>,
) -> Result<(), AllocError>
    ensures { OnOk result ((p : Program) → state_of p state.new ≡ pushed (record { cmds = map (cmd_of p) cmds.entry.items; exit = exit_of exit.entry }) (state_of p state.old)) }
{
    let mut cmds = cmds;
    cmds.reverse();
    state.blocks.push(Block { cmds, exit })?;
    state.takes_in = true;
    Ok(())
}

/// A block with these commands in front of its own.
pub fn take_in<'p>(block: Block<'p>, cmds: Vec<Cmd<'p>>) -> Result<Block<'p>, AllocError>
    ensures { IfOk result (λ made. (p : Program) → made_of p made ≡ record { cmds = map (cmd_of p) cmds.entry.items ++ (made_of p block.entry).cmds; exit = exit_of block.entry.exit }) }
{
    let mut made = block;
    let mut first = cmds;
    first.reverse();
    made.cmds.append(&mut first)?;
    Ok(made)
}

/// The point with this key lies here.
pub fn mark(state: &mut Emitted<'_>, at: u128) -> Result<(), AllocError>
    ensures { OnOk result ((p : Program) (point : Point) → at ≡ key point → state_of p state.new ≡ marked_at point (state_of p state.old)) }
{
    let here = state.blocks.len();
    state.takes_in = false;
    state.marks.mark(at, here)
}

/// Takes back all marks but the first ones, which are those of `old`.
pub fn go_back(state: &mut Emitted<'_>, first: usize) -> Result<(), AllocError>
    ensures marks { OnOk result (marked state.new.marks ≡ undone (drop first state.old.marks.undo.items) (marked state.old.marks)) }
    ensures undo { OnOk result (state.new.marks.undo.items ≡ take first state.old.marks.undo.items) }
    ensures blocks { state.new.blocks ≡ state.old.blocks }
    ensures takes_in { state.new.takes_in ≡ state.old.takes_in }
{
    state.marks.undo_to(first)
}

/// How far the point with this key lies ahead.
pub fn ahead(state: &Emitted<'_>, at: u128) -> usize
    ensures { result ≡ length state.now.blocks.items - unwrap_or (marked state.now.marks at) 1 }
{
    state.blocks.len().saturating_sub(state.marks.at(at))
}
