//! The types of all incarnations.
ghost use Rattle.std.specs.Prelude.{◌≡◌, ◌++◌, List, map, length, IfOk, OnOk};
ghost use Rattle.bg_ast.specs.Resolved as r;
ghost use Rattle.bg_ast.specs.Meaning.{meaning_of};
ghost use Rattle.bg_ast.specs.Views.{program_of};
ghost use Rattle.bg_sense.specs.Types.{types_of};
ghost use Rattle.bg_kinds.specs.Views.{ref_in};
ghost use Rattle.bg_blocks.specs.Views.{block_of};
ghost use Rattle.bg_blocks.specs.EmittedViews.{frame_of};
ghost use Rattle.bg_passive.specs.Incarnations.{incarnations};
ghost use Rattle.bg_passive.specs.Arrivals.{arrived};
ghost use Rattle.bg_incarnate.specs.Even.{BlocksEven};
ghost use Rattle.bg_incarnate.specs.Views.{incarnations_of};
ghost use Rattle.bg_sorts.specs.Arrivals.{after_block, after_blocks};
ghost use Rattle.bg_sorts.specs.Passive.{ArrivesAt};

use crate::arrival::push_new;
use crate::commands::push_commands;
use crate::known::Known;
use crate::types::declared_kinds;
use bg_ast::resolved::Resolved;
use bg_blocks::Block;
use bg_fits::push_copies;
use bg_incarnate::{Incarnations, Passive};
use bg_kinds::ValueType;
use std::alloc::{AllocError, Global};

/// Adds the types of the incarnations that are new at a block's arrival, and of those that its commands make.
fn push_block(
    alloc: Global,
    made: &mut Vec<ValueType>,
    known: &Known<'_>,
    at: &Incarnations,
    b: &Block<'_>,
) -> Result<(), AllocError>
    ensures { OnOk result (map ref_in made.new.items ≡ after_block (map ref_in known.now.globals.now) (map ref_in known.now.frame.now) (incarnations_of at.now) (block_of (program_of known.now.program.now) b.now) (map ref_in made.old.items)) }
{
    push_new(alloc, made, &at.globals, known.globals)?;
    push_new(alloc, made, &at.frame, known.frame)?;
    push_commands(alloc, made, known, &b.cmds)
}

/// The same of blocks, one after the other.
#[tactic(auto, using(crate::proofs::Given::blocks_past))]
fn push_blocks(
    alloc: Global,
    made: &mut Vec<ValueType>,
    known: &Known<'_>,
    arrivals: &[Incarnations],
    blocks: &[Block<'_>],
) -> Result<(), AllocError>
    ensures { OnOk result (map ref_in made.new.items ≡ after_blocks (map ref_in known.now.globals.now) (map ref_in known.now.frame.now) (map incarnations_of arrivals.now) (map (block_of (program_of known.now.program.now)) blocks.now) (map ref_in made.old.items)) }
{
    for (i, at) in arrivals.iter().enumerate() {
        if i >= blocks.len() {
            return Ok(());
        }
        push_block(alloc, made, known, at, &blocks[i])?;
    }
    Ok(())
}

/// The type of each incarnation of blocks made passive, where the frame's variables have these.
///
/// Only want of memory is an error.
pub fn incarnation_kinds(
    alloc: Global,
    program: &Resolved,
    frame: &[ValueType],
    blocks: &[Block<'_>],
    passive: &Passive,
) -> Result<Vec<ValueType>, AllocError>
    ensures types { IfOk result (λ made. (rs : List r.Declared) → map ref_in frame.now ≡ types_of (frame_of (program_of program.now) rs) → ArrivesAt (program_of program.now) rs blocks.now passive.now → BlocksEven (map (block_of (program_of program.now)) blocks.now) → map ref_in made.items ≡ incarnations (meaning_of (program_of program.now)) (frame_of (program_of program.now) rs) (arrived (meaning_of (program_of program.now)) (frame_of (program_of program.now) rs) (map (block_of (program_of program.now)) blocks.now)).made) }
    ensures count { IfOk result (λ made. (rs : List r.Declared) → map ref_in frame.now ≡ types_of (frame_of (program_of program.now) rs) → ArrivesAt (program_of program.now) rs blocks.now passive.now → BlocksEven (map (block_of (program_of program.now)) blocks.now) → length made.items ≡ passive.now.count) }
{
    let globals = declared_kinds(alloc, &program.types, &program.globals)?;
    let known = Known {
        program,
        globals: &globals,
        frame,
    };
    let mut made = Vec::new(alloc);
    push_copies(alloc, &globals, &mut made)?;
    push_copies(alloc, frame, &mut made)?;
    push_blocks(alloc, &mut made, &known, &passive.arrivals, blocks)?;
    Ok(made)
}
