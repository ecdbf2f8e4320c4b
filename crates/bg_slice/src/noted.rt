//! Marks of the rows and the candidates that commands which count for a target name.
ghost use Rattle.std.specs.Prelude.{◌≡◌, false, map, replicate, IfOk, OnOk};
ghost use Rattle.bg_places.specs.Views.{spot_of};
ghost use Rattle.bg_formed.specs.Seen.{use_of};
ghost use Rattle.bg_formed.specs.Views.{form_cmds_of, form_edge_of, form_block_of};
ghost use Rattle.bg_slice.specs.Slices.{names_blocks, guards_in, slice_edges, slice_block, sliced};
ghost use Rattle.bg_slice.specs.Marks.{marked};
ghost use Rattle.bg_slice.specs.Noted.{kept_in, noted_cmds, noted_edges, noted_block, noted_blocks};

use crate::counting::counting;
use crate::guards::mark_guards;
use crate::marks::mark_cmds;
use bg_formed::{FormBlock, FormCmd, FormEdge, Use, use_edges, use_later, uses};
use bg_places::Spot;
use std::alloc::{AllocError, Global};
use std::collections::VecDeque;

/// Of rows whether a command that counts names them, and of candidates whether they guard one.
#[derive(Drop)]
pub struct Kept {
    pub rows: Vec<bool>,
    pub named: Vec<bool>,
}

/// What commands name is marked; the rows are the atoms from `base` on.
fn note_cmds(base: u32, marks: &mut Kept, cmds: &[FormCmd])
    ensures { kept_in marks.new ≡ noted_cmds base (form_cmds_of cmds.now) (kept_in marks.old) }
{
    mark_cmds(base, &mut marks.rows, cmds);
    mark_guards(&mut marks.named, cmds);
}

/// What those of the commands on the ways name is marked that count.
fn note_edges(base: u32, marks: &mut Kept, target: Spot, later: &VecDeque<Use>, edges: &[FormEdge])
    ensures { kept_in marks.new ≡ noted_edges base (slice_edges (spot_of target) (map use_of later.now.items) (map form_edge_of edges.now)) (kept_in marks.old) }
{
    for e in edges {
        let on = use_later(later, e.to);
        note_cmds(base, marks, counting(target, &e.cmds, on));
    }
}

/// What those of a block's commands name is marked that count.
fn note_block(base: u32, marks: &mut Kept, target: Spot, later: &VecDeque<Use>, b: &FormBlock)
    ensures { kept_in marks.new ≡ noted_block base (slice_block (spot_of target) (map use_of later.now.items) (form_block_of b.now)) (kept_in marks.old) }
{
    let on = use_edges(target, later, &b.next);
    note_cmds(base, marks, counting(target, &b.cmds, on));
    note_edges(base, marks, target, later, &b.next);
}

/// What those of the blocks' commands name is marked that count.
fn note_blocks(
    alloc: Global,
    base: u32,
    marks: &mut Kept,
    target: Spot,
    blocks: &[FormBlock],
) -> Result<(), AllocError>
    ensures { OnOk result (kept_in marks.new ≡ noted_blocks base (sliced (spot_of target) (map form_block_of blocks.now)) (kept_in marks.old)) }
{
    let mut later = uses(alloc, target, blocks)?;
    for b in blocks {
        let _ = later.pop_front();
        note_block(base, marks, target, &later, b);
    }
    Ok(())
}

/// What of blocks counts for the target: which of so many rows, which are the atoms from `base` on, are named by commands that count, and
/// which of so many candidates guard one.
pub fn what_counts(
    alloc: Global,
    target: Spot,
    base: u32,
    rows: usize,
    candidates: u32,
    blocks: &[FormBlock],
) -> Result<Kept, AllocError>
    ensures rows { IfOk result (λ made. made.rows.items ≡ marked (λ n. names_blocks n (sliced (spot_of target) (map form_block_of blocks.now))) base (replicate rows false)) }
    ensures named { IfOk result (λ made. made.named.items ≡ guards_in candidates (sliced (spot_of target) (map form_block_of blocks.now))) }
{
    let mut made = Kept {
        rows: vec![in alloc; false; rows]?,
        named: vec![in alloc; false; candidates as usize]?,
    };
    note_blocks(alloc, base, &mut made, target, blocks)?;
    Ok(made)
}
