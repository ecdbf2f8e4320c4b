//! The forms that say that blocks fail.
ghost use Rattle.std.specs.Prelude.{◌≡◌, map, IfOk};
ghost use Rattle.bg_places.specs.Views.{spot_of};
ghost use Rattle.bg_formed.specs.Seen.{use_of};
ghost use Rattle.bg_formed.specs.Views.{form_edge_of, form_block_of};
ghost use Rattle.bg_forms.specs.Forms.{any_of};
ghost use Rattle.bg_clause.specs.Failing.{fail_later, fail_edges};
ghost use Rattle.bg_clause.specs.Cutting.{ahead_of, fail_edge, cut_block};
ghost use Rattle.bg_clause.specs.Lends.{lent_in};
ghost use Rattle.bg_clause.specs.Views.{short_in};
ghost use Rattle.bg_slice.specs.Slices.{slice_edge, slice_edges};

use crate::fails::{Ahead, cut_cmds};
use crate::lent::{Lent, any_of};
use crate::short::{Short, form_at};
use bg_formed::{FormBlock, FormEdge, Use, use_edges, use_later};
use bg_places::Spot;
use std::alloc::{AllocError, Global};
use std::collections::VecDeque;

/// Of later blocks, the next one first, what stands in a form in the place of each, and what is reached from there.
#[derive(Drop)]
pub struct Later {
    pub fails: VecDeque<Short>,
    pub uses: VecDeque<Use>,
}

/// The later block so far ahead fails.
fn fail_later<'a>(later: &VecDeque<Short>, to: usize) -> Lent<'a>
    ensures { lent_in result ≡ fail_later (map short_in later.now.items) to }
{
    match later.get(to) {
        Some(s) => form_at(*s),
        None => Lent::Plain(false),
    }
}

/// One way more, in front of others.
fn cut_edge<'a>(
    alloc: Global,
    units: &[Option<u32>],
    target: Spot,
    later: &Later,
    e: &'a FormEdge,
    rest: Lent<'a>,
) -> Result<Lent<'a>, AllocError>
    ensures { IfOk result (λ x. lent_in x ≡ any_of (fail_edge units.now (spot_of target) (map short_in later.now.fails.items) (slice_edge (spot_of target) (map use_of later.now.uses.items) (form_edge_of e.now))) (lent_in rest.entry)) }
{
    let ahead = Ahead {
        form: fail_later(&later.fails, e.to),
        on: use_later(&later.uses, e.to),
    };
    let Ahead { form: here, on: _ } = cut_cmds(alloc, units, target, &e.cmds, ahead)?;
    any_of(alloc, here, rest)
}

/// The ways on fail.
#[tactic(auto, using(crate::proofs::Onward::cut_rules))]
fn cut_edges<'a>(
    alloc: Global,
    units: &[Option<u32>],
    target: Spot,
    later: &Later,
    edges: &'a [FormEdge],
) -> Result<Lent<'a>, AllocError>
    ensures { IfOk result (λ x. lent_in x ≡ fail_edges units.now (spot_of target) (map short_in later.now.fails.items) (slice_edges (spot_of target) (map use_of later.now.uses.items) (map form_edge_of edges.now))) }
{
    let mut made = Lent::Plain(false);
    let mut left: &'a [FormEdge] = edges;
    while let Some((last, before)) = left.split_last() {
        made = cut_edge(alloc, units, target, later, last, made)?;
        left = before;
    }
    Ok(made)
}

/// A block fails, of which only what counts for the target says something; and what is reached from it.
pub fn cut_block<'a>(
    alloc: Global,
    units: &[Option<u32>],
    target: Spot,
    later: &Later,
    b: &'a FormBlock,
) -> Result<Ahead<'a>, AllocError>
    ensures { IfOk result (λ x. ahead_of x ≡ cut_block units.now (spot_of target) (map short_in later.now.fails.items) (map use_of later.now.uses.items) (form_block_of b.now)) }
{
    let ahead = Ahead {
        form: cut_edges(alloc, units, target, later, &b.next)?,
        on: use_edges(target, &later.uses, &b.next),
    };
    cut_cmds(alloc, units, target, &b.cmds, ahead)
}
