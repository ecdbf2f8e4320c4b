//! The turns of blocks.
ghost use Rattle.std.specs.Prelude.{◌≡◌, map, slice_get, IfOk};
ghost use Rattle.bg_formed.specs.Views.{form_edge_of};
ghost use Rattle.bg_model.specs.Behind.{stretch_of};
ghost use Rattle.bg_model.specs.Turns as spec;
ghost use Rattle.bg_model.specs.Views.{walk_in};

use crate::stretch::Stretch;
use crate::trial::Trial;
use crate::turn::Turn;
use crate::walk::{Went, walk};
use bg_formed::FormEdge;
use std::alloc::AllocError;
use std::collections::VecDeque;

/// Whether some walk fails from the block that is so far ahead.
pub fn fails(later: &VecDeque<Turn>, k: usize) -> bool
    ensures { result ≡ spec.fails (slice_get later.now.items k) }
{
    match later.get(k) {
        None => false,
        Some(Turn::Well) => false,
        Some(Turn::Ends) => true,
        Some(Turn::Leads(_)) => true,
    }
}

/// Whether some walk fails along an edge.
fn edge_fails(trial: Trial<'_>, later: &VecDeque<Turn>, e: &FormEdge) -> bool
    ensures { result ≡ spec.edge_fails (walk_in trial.entry) later.now.items (form_edge_of e.now) }
{
    match walk(trial, &e.cmds) {
        Went::On => fails(later, e.to),
        Went::Stopped => false,
        Went::Hit => true,
    }
}

/// The lowest edge along which some walk fails.
fn lowest(trial: Trial<'_>, later: &VecDeque<Turn>, edges: &[FormEdge]) -> Turn
    ensures { result ≡ spec.lowest (walk_in trial.entry) later.now.items 0 (map form_edge_of edges.now) }
{
    for (j, e) in edges.iter().enumerate() {
        if edge_fails(trial, later, e) {
            return Turn::Leads(j);
        }
    }
    Turn::Well
}

/// Where a failing walk goes from a block, where it goes so from the later ones.
fn turn_at(trial: Trial<'_>, later: &VecDeque<Turn>, b: Stretch<'_>) -> Turn
    ensures { result ≡ spec.turn_at (walk_in trial.entry) later.now.items (stretch_of b.entry) }
{
    match walk(trial, b.cmds) {
        Went::On => lowest(trial, later, b.next),
        Went::Stopped => Turn::Well,
        Went::Hit => Turn::Ends,
    }
}

/// Where a failing walk goes from each block, told from the last one back.
pub fn turns(trial: Trial<'_>, blocks: &[Stretch<'_>]) -> Result<VecDeque<Turn>, AllocError>
    ensures { IfOk result (λ made. made.items ≡ spec.turns (walk_in trial.entry) (map stretch_of blocks.now)) }
{
    let mut later = VecDeque::new(trial.alloc);
    for i in 0..blocks.len() {
        let k = blocks.len() - 1 - i;
        let t = turn_at(trial, &later, blocks[k]);
        later.push_front(t)?;
    }
    Ok(later)
}
