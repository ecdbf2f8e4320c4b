//! Blocks made passive.
ghost use Rattle.std.specs.Prelude.{◌≡◌, ◌+◌, ◌++◌, List, [], map, length, IfOk, OnOk};
ghost use Rattle.bg_ast.specs.Resolved as r;
ghost use Rattle.bg_ast.specs.Meaning.{meaning_of};
ghost use Rattle.bg_ast.specs.Views.{program_of};
ghost use Rattle.bg_blocks.specs.Views.{block_of};
ghost use Rattle.bg_blocks.specs.EmittedViews.{frame_of};
ghost use Rattle.bg_passive.specs.Incarnations.{passives, entry_env, incarnations};
ghost use Rattle.bg_passive.specs.Arrivals.{arrived};
ghost use Rattle.bg_incarnate.specs.Views.{passive_block_of, incarnations_of, incarnations_at};
ghost use Rattle.bg_incarnate.specs.Even.{BlocksEven};
ghost use Rattle.bg_incarnate.specs.Walked.{walked_of, finished, arrived_with, next_in, walk_after};

use crate::arrived::Arrived;
use crate::blocks::{Incarnations, Passive, PassiveBlock};
use crate::edges::edges_of;
use crate::held::{Held, fresh};
use crate::walk::walk;
use bg_ast::resolved::Resolved;
use bg_blocks::Block;
use std::alloc::{AllocError, Global};
use std::collections::VecDeque;

/// The blocks that were walked, with their ways on, and the incarnations at their arrivals.
fn finish(
    alloc: Global,
    walked: &mut VecDeque<Arrived<'_>>,
    blocks: &[Block<'_>],
    arrivals: &mut Vec<Incarnations>,
) -> Result<Vec<PassiveBlock>, AllocError>
    ensures arrivals { OnOk result (map incarnations_of arrivals.new.items ≡ map incarnations_of arrivals.old.items ++ arrived_with (map walked_of walked.old.items) blocks.now) }
    ensures blocks { IfOk result (λ made. (p : r.Program) → map passive_block_of made.items ≡ finished (map walked_of walked.old.items) (map (block_of p) blocks.now)) }
{
    let mut made = Vec::new(alloc);
    for b in blocks {
        match walked.pop_front() {
            None => return Ok(made),
            Some(w) => {
                let next = edges_of(alloc, &w.end, walked, &b.exit)?;
                made.push(PassiveBlock { cmds: w.cmds, next })?;
                arrivals.push(Incarnations {
                    globals: w.held.globals,
                    frame: w.held.frame,
                })?;
            }
        }
    }
    Ok(made)
}

/// The blocks of a body made passive, where the frame has so many variables.
///
/// Only want of memory is an error; 2^32 incarnations count as such.
pub fn passive(
    alloc: Global,
    program: &Resolved,
    frame: usize,
    blocks: &[Block<'_>],
) -> Result<Passive, AllocError>
    ensures blocks { IfOk result (λ made. (rs : List r.Declared) → length rs ≡ frame → map passive_block_of made.blocks.items ≡ passives (arrived (meaning_of (program_of program.now)) (frame_of (program_of program.now) rs) (map (block_of (program_of program.now)) blocks.now)).arrivals (map (block_of (program_of program.now)) blocks.now)) }
    ensures arrivals { IfOk result (λ made. (rs : List r.Declared) → length rs ≡ frame → map incarnations_of made.arrivals.items ≡ map incarnations_at (arrived (meaning_of (program_of program.now)) (frame_of (program_of program.now) rs) (map (block_of (program_of program.now)) blocks.now)).arrivals) }
    ensures firsts { IfOk result (λ made. (rs : List r.Declared) → length rs ≡ frame → made.firsts.items ≡ map next_in (arrived (meaning_of (program_of program.now)) (frame_of (program_of program.now) rs) (map (block_of (program_of program.now)) blocks.now)).arrivals) }
    ensures count { IfOk result (λ made. (rs : List r.Declared) → length rs ≡ frame → made.count ≡ walk_after (entry_env (meaning_of (program_of program.now)) (frame_of (program_of program.now) rs)) (map (block_of (program_of program.now)) blocks.now) [] (length program.now.globals.items + frame)) }
    ensures counted { IfOk result (λ made. (rs : List r.Declared) → length rs ≡ frame → BlocksEven (map (block_of (program_of program.now)) blocks.now) → made.count ≡ length (incarnations (meaning_of (program_of program.now)) (frame_of (program_of program.now) rs) (arrived (meaning_of (program_of program.now)) (frame_of (program_of program.now) rs) (map (block_of (program_of program.now)) blocks.now)).made)) }
{
    let mut next = 0;
    let before = fresh(alloc, &mut next, program.globals.len())?;
    let globals = before.to_vec(alloc)?;
    let locals = fresh(alloc, &mut next, frame)?;
    let entry = Held {
        globals,
        before: &before,
        frame: locals,
    };
    let mut firsts = Vec::new(alloc);
    let mut walked = walk(alloc, &entry, blocks, &mut next, &mut firsts)?;
    let mut arrivals = Vec::new(alloc);
    let made = finish(alloc, &mut walked, blocks, &mut arrivals)?;
    Ok(Passive {
        blocks: made,
        arrivals,
        firsts,
        count: next,
    })
}
