//! The walk over blocks.
ghost use Rattle.std.specs.Prelude.{◌≡◌, [], ◌++◌, map, IfOk, OnOk};
ghost use Rattle.bg_ast.specs.Resolved.{Program};
ghost use Rattle.bg_blocks.specs.Views.{block_of, exit_of};
ghost use Rattle.bg_passive.specs.Incarnations.{targets_of};
ghost use Rattle.bg_passive.specs.Arrivals.{way_to, ways_to, arrive_at, ways_here, ways_on};
ghost use Rattle.bg_incarnate.specs.Views.{held_env};
ghost use Rattle.bg_incarnate.specs.Walked.{walked_of, open_of, passed_at, walked_at, ways_after, walk, walk_after, first_in};

use crate::arrived::Arrived;
use crate::command::commands;
use crate::held::Held;
use crate::merge::{alone, arrive, copied};
use bg_blocks::{Block, Exit};
use std::alloc::{AllocError, Global};
use std::collections::VecDeque;

/// One more open way to the block that is so far ahead.
fn open<'b>(
    alloc: Global,
    ways: &mut VecDeque<Vec<Held<'b>>>,
    k: usize,
    held: Held<'b>,
) -> Result<(), AllocError>
    ensures { OnOk result (open_of ways.new.items ≡ way_to k (held_env held.entry) (open_of ways.old.items)) }
{
    while ways.len() <= k {
        ways.push_back(Vec::new(alloc))?;
    }
    ways[k].push(held)?;
    Ok(())
}

/// One more open way to each of these blocks.
fn open_each<'b>(
    alloc: Global,
    ways: &mut VecDeque<Vec<Held<'b>>>,
    ks: &[usize],
    held: &Held<'b>,
) -> Result<(), AllocError>
    ensures { OnOk result (open_of ways.new.items ≡ ways_to ks.now (held_env held.now) (open_of ways.old.items)) }
{
    for k in ks {
        let copy = copied(alloc, held)?;
        open(alloc, ways, *k, copy)?;
    }
    Ok(())
}

/// One more open way to each block that an exit leads to.
#[tactic(auto, using(crate::proofs::Walks::targets_leap))]
fn open_exit<'b>(
    alloc: Global,
    ways: &mut VecDeque<Vec<Held<'b>>>,
    exit: &Exit<'_>,
    held: &Held<'b>,
) -> Result<(), AllocError>
    ensures { OnOk result (open_of ways.new.items ≡ ways_to (targets_of (exit_of exit.now)) (held_env held.now) (open_of ways.old.items)) }
{
    match exit {
        Exit::Leap(ks) => {
            if ks.is_empty() {
                open_each(alloc, ways, &[0], held)
            } else {
                open_each(alloc, ways, ks, held)
            }
        }
        Exit::Either(_, on, off) => open_each(alloc, ways, &[*on, *off], held),
    }
}

/// The incarnations where the ways to the next block meet. Those of a way that is alone are taken over.
fn meet<'b>(
    alloc: Global,
    entry: &Held<'b>,
    ways: &mut VecDeque<Vec<Held<'b>>>,
    next: &mut u32,
) -> Result<Held<'b>, AllocError>
    ensures env { IfOk result (λ h. held_env h ≡ (arrive_at (held_env entry.now) (ways_here (open_of ways.old.items)) next.old).env) }
    ensures more { OnOk result (next.new ≡ (arrive_at (held_env entry.now) (ways_here (open_of ways.old.items)) next.old).next) }
    ensures ways { open_of ways.new.items ≡ ways_on (open_of ways.old.items) }
{
    let Some(mut here) = ways.pop_front() else {
        return arrive(alloc, entry, &[], next);
    };
    match alone(&mut here) {
        Some(only) => Ok(only),
        None => arrive(alloc, entry, &here, next),
    }
}

/// A block, to which these ways are open.
fn step<'b>(
    alloc: Global,
    entry: &Held<'b>,
    ways: &mut VecDeque<Vec<Held<'b>>>,
    b: &Block<'_>,
    next: &mut u32,
) -> Result<Arrived<'b>, AllocError>
    ensures walked { IfOk result (λ w. (p : Program) → walked_of w ≡ walked_at (held_env entry.now) (block_of p b.now) (open_of ways.old.items) next.old) }
    ensures ways { OnOk result ((p : Program) → open_of ways.new.items ≡ ways_after (held_env entry.now) (block_of p b.now) (open_of ways.old.items) next.old) }
    ensures more { OnOk result ((p : Program) → next.new ≡ (passed_at (held_env entry.now) (block_of p b.now) (open_of ways.old.items) next.old).next) }
{
    let held = meet(alloc, entry, ways, next)?;
    let first = *next;
    let mut end = copied(alloc, &held)?;
    let mut cmds = Vec::new(alloc);
    commands(alloc, &mut cmds, &mut end, next, &b.cmds)?;
    open_exit(alloc, ways, &b.exit, &end)?;
    Ok(Arrived {
        held,
        next: first,
        cmds,
        end,
    })
}

/// The walk over all blocks, and the first new incarnation at each.
pub fn walk<'b>(
    alloc: Global,
    entry: &Held<'b>,
    blocks: &[Block<'_>],
    next: &mut u32,
    firsts: &mut Vec<u32>,
) -> Result<VecDeque<Arrived<'b>>, AllocError>
    ensures walked { IfOk result (λ made. (p : Program) → map walked_of made.items ≡ walk (held_env entry.now) (map (block_of p) blocks.now) [] next.old) }
    ensures firsts { OnOk result ((p : Program) → firsts.new.items ≡ firsts.old.items ++ map first_in (walk (held_env entry.now) (map (block_of p) blocks.now) [] next.old)) }
    ensures more { OnOk result ((p : Program) → next.new ≡ walk_after (held_env entry.now) (map (block_of p) blocks.now) [] next.old) }
{
    let mut ways = VecDeque::new(alloc);
    let mut made = VecDeque::new(alloc);
    for b in blocks {
        let w = step(alloc, entry, &mut ways, b, next)?;
        firsts.push(w.next)?;
        made.push_back(w)?;
    }
    Ok(made)
}
