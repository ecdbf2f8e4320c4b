//! Flat blocks behind instances.
ghost use Rattle.std.specs.Prelude.{◌≡◌, ◌++◌, [], List, map, IfOk};
ghost use Rattle.bg_ast.specs.Syntax.{Fun};
ghost use Rattle.bg_incarnate.specs.Views.{cmds_of, passive_block_of};
ghost use Rattle.bg_flat.specs.Blocks.{in_front};
ghost use Rattle.bg_flat.specs.Fronts.{stated};
ghost use Rattle.bg_flatten.specs.Plain.{PlainBlocks};
ghost use Rattle.bg_numbered.specs.Lines.{instances_in};
ghost use Rattle.bg_term_table.specs.Views.{terms_in};
ghost use Rattle.bg_term_table.specs.Lines.{lines_of};

use crate::lines::supposing_lines;
use bg_flatten::laws::plain_blocks_stay;
use bg_flatten::{Flat, flattened};
use bg_incarnate::{PassiveBlock, PassiveCmd};
use bg_term_table::{Around, Line, Term};
use std::alloc::{AllocError, Global};
use std::mem::replace;

/// The commands in front of those of the block.
fn with_front(mut front: Vec<PassiveCmd>, block: PassiveBlock) -> Result<PassiveBlock, AllocError>
    ensures { IfOk result (λ made. passive_block_of made ≡ record { cmds = cmds_of front.items ++ (passive_block_of block).cmds; next = (passive_block_of block).next }) }
{
    let PassiveBlock { mut cmds, next } = block;
    front.append(&mut cmds)?;
    Ok(PassiveBlock { cmds: front, next })
}

/// No incarnation and no function.
fn nothing() -> Around<'static>
    ensures incarnations { result.incarnations.now ≡ [] }
    ensures results { result.results.now ≡ [] }
{
    Around {
        incarnations: &[],
        results: &[],
    }
}

/// Flat blocks, which hold no application, select, update and `old`, behind what lines say of terms that stand behind so many incarnations. All of
/// it is copied.
///
/// Only want of memory is an error; 2^32 incarnations and terms count as such.
pub fn behind(
    alloc: Global,
    count: u32,
    terms: &[Term],
    lines: &[Line],
    flats: &[PassiveBlock],
) -> Result<Vec<PassiveBlock>, AllocError>
    ensures { IfOk result (λ made. (fs : List Fun) → PlainBlocks (map passive_block_of flats.now) → map passive_block_of made.items ≡ in_front (stated count (terms_in fs terms.now) (instances_in (lines_of lines.now))) (map passive_block_of flats.now)) }
{
    plain_blocks_stay();
    let around = nothing();
    let Flat {
        terms: _,
        mut blocks,
    } = flattened(alloc, around, flats)?;
    if blocks.is_empty() {
        return Ok(blocks);
    }
    let front = supposing_lines(alloc, count, terms, lines)?;
    let blank = PassiveBlock {
        cmds: Vec::new(alloc),
        next: Vec::new(alloc),
    };
    let first = replace(&mut blocks[0], blank);
    blocks[0] = with_front(front, first)?;
    Ok(blocks)
}
