//! Blocks of forms in which only what counts for a target says something.
ghost use Rattle.std.specs.Prelude.{◌≡◌, ◌||◌, [], ◌∷◌, map, IfOk};
ghost use Rattle.bg_text.specs.Views.{option_of};
ghost use Rattle.bg_ast.specs.Views.{candidate_of};
ghost use Rattle.bg_places.specs.Views.{spot_of};
ghost use Rattle.bg_formed.specs.Seen.{use_of};
ghost use Rattle.bg_formed.specs.Views.{says_of, form_cmd_of, form_cmds_of, form_edge_of, form_block_of};
ghost use Rattle.bg_slice.specs.Slices.{left_out, kept, kept_guard, slice_cmds, slice_edge, slice_edges, slice_block, sliced};

use bg_base::{CandId, Op, OutOfRange};
use bg_formed::{
    FormBlock, FormCmd, FormEdge, Says, Use, is_spot, use_cmd, use_edges, use_later, uses,
};
use bg_forms::copy;
use bg_places::Spot;
use std::alloc::{AllocError, Global};
use std::collections::VecDeque;

fn left_out() -> Says
    ensures { says_of result ≡ left_out }
{
    Says::Outside(OutOfRange {
        op: Op::Negate,
        a: i128::MIN,
        b: 0,
    })
}

fn kept(alloc: Global, counts: bool, r: &Says) -> Result<Says, AllocError>
    ensures { IfOk result (λ x. says_of x ≡ kept counts (says_of r.now)) }
{
    if !counts {
        return Ok(left_out());
    }
    match r {
        Says::Form(f) => Ok(Says::Form(copy(alloc, f)?)),
        Says::Outside(e) => Ok(Says::Outside(*e)),
    }
}

fn kept_guard(counts: bool, b: Option<CandId>) -> Option<CandId>
    ensures { option_of candidate_of result ≡ kept_guard counts (option_of candidate_of b) }
{
    if counts { b } else { None }
}

/// One command in front of what is behind it.
fn slice_cmd(alloc: Global, target: Spot, k: &FormCmd, u: Use) -> Result<FormCmd, AllocError>
    ensures { IfOk result (λ x. form_cmd_of x ∷ [] ≡ slice_cmds (spot_of target) (form_cmd_of k.now ∷ []) (use_of u)) }
{
    match k {
        FormCmd::Claims(s, b, r) => {
            let counts = is_spot(*s, target) || u.reached;
            let r = kept(alloc, counts, r)?;
            Ok(FormCmd::Claims(*s, kept_guard(counts, *b), r))
        }
        FormCmd::Supposes(b, r) => {
            let r = kept(alloc, u.reached, r)?;
            Ok(FormCmd::Supposes(kept_guard(u.reached, *b), r))
        }
    }
}

#[tactic(auto, using(crate::proofs::Onward::cut_rules))]
fn slice_cmds(
    alloc: Global,
    target: Spot,
    cmds: &[FormCmd],
    u: Use,
) -> Result<Vec<FormCmd>, AllocError>
    ensures { IfOk result (λ made. form_cmds_of made.items ≡ slice_cmds (spot_of target) (form_cmds_of cmds.now) (use_of u)) }
{
    let mut made = Vec::with_capacity(alloc, cmds.len())?;
    let mut behind = u;
    let mut left: &[FormCmd] = cmds;
    while let Some((last, before)) = left.split_last() {
        let k = slice_cmd(alloc, target, last, behind)?;
        made.push(k)?;
        behind = use_cmd(target, last, behind);
        left = before;
    }
    made.reverse();
    Ok(made)
}

fn slice_edge(
    alloc: Global,
    target: Spot,
    later: &VecDeque<Use>,
    e: &FormEdge,
) -> Result<FormEdge, AllocError>
    ensures { IfOk result (λ x. form_edge_of x ≡ slice_edge (spot_of target) (map use_of later.now.items) (form_edge_of e.now)) }
{
    let cmds = slice_cmds(alloc, target, &e.cmds, use_later(later, e.to))?;
    Ok(FormEdge { cmds, to: e.to })
}

fn slice_edges(
    alloc: Global,
    target: Spot,
    later: &VecDeque<Use>,
    edges: &[FormEdge],
) -> Result<Vec<FormEdge>, AllocError>
    ensures { IfOk result (λ made. map form_edge_of made.items ≡ slice_edges (spot_of target) (map use_of later.now.items) (map form_edge_of edges.now)) }
{
    let mut made = Vec::with_capacity(alloc, edges.len())?;
    for e in edges {
        let x = slice_edge(alloc, target, later, e)?;
        made.push(x)?;
    }
    Ok(made)
}

fn slice_block(
    alloc: Global,
    target: Spot,
    later: &VecDeque<Use>,
    b: &FormBlock,
) -> Result<FormBlock, AllocError>
    ensures { IfOk result (λ x. form_block_of x ≡ slice_block (spot_of target) (map use_of later.now.items) (form_block_of b.now)) }
{
    let on = use_edges(target, later, &b.next);
    let cmds = slice_cmds(alloc, target, &b.cmds, on)?;
    let next = slice_edges(alloc, target, later, &b.next)?;
    Ok(FormBlock { cmds, next })
}

/// The blocks, in which only commands that count for the target say something.
pub fn sliced(
    alloc: Global,
    target: Spot,
    blocks: &[FormBlock],
) -> Result<Vec<FormBlock>, AllocError>
    ensures { IfOk result (λ made. map form_block_of made.items ≡ sliced (spot_of target) (map form_block_of blocks.now)) }
{
    let mut later = uses(alloc, target, blocks)?;
    let mut made = Vec::with_capacity(alloc, blocks.len())?;
    for b in blocks {
        let _ = later.pop_front();
        let x = slice_block(alloc, target, &later, b)?;
        made.push(x)?;
    }
    Ok(made)
}
