//! Which commands count for a target.
ghost use Rattle.std.specs.Prelude.{◌≡◌, [], ◌∷◌, map, IfOk, OnOk};
ghost use Rattle.bg_places.specs.Views.{spot_of};
ghost use Rattle.bg_passive.specs.Passive.{spot_eq};
ghost use Rattle.bg_formed.specs.Used.{unused, refusal_of, first_of, in_front, use_cmds, use_either, use_later, use_edges, use_block, uses, refused};
ghost use Rattle.bg_formed.specs.Views.{says_of, form_cmd_of, form_cmds_of, form_edge_of, form_block_of};
ghost use Rattle.bg_formed.specs.Seen.{use_of};

use crate::blocks::{FormBlock, FormCmd, FormEdge, Says};
use bg_base::OutOfRange;
use bg_places::Spot;
use std::alloc::{AllocError, Global};
use std::collections::VecDeque;

/// Whether a check is reached from a block on, and the first operation on the way that leaves the range.
#[derive(Clone, Copy, PartialEq, Eq, Debug)]
pub struct Use {
    pub reached: bool,
    pub refusal: Option<OutOfRange>,
}

pub fn is_spot(s: Spot, t: Spot) -> bool
    ensures { result ≡ spot_eq (spot_of s) (spot_of t) }
{
    match (s, t) {
        (Spot::Assert(a), Spot::Assert(b)) => a == b,
        (Spot::Entry(a), Spot::Entry(b)) => a == b,
        (Spot::Turn(a), Spot::Turn(b)) => a == b,
        (Spot::Call(s, a), Spot::Call(t, b)) => s == t && a == b,
        (Spot::Return(s, a), Spot::Return(t, b)) => s == t && a == b,
        _ => false,
    }
}

fn unused() -> Use
    ensures { use_of result ≡ unused }
{
    Use {
        reached: false,
        refusal: None,
    }
}

fn first_of(r: &Says, o: Option<OutOfRange>) -> Option<OutOfRange>
    ensures { result ≡ first_of (refusal_of (says_of r.now)) o }
{
    match r {
        Says::Form(_) => o,
        Says::Outside(e) => Some(*e),
    }
}

fn in_front(r: &Says, u: Use) -> Use
    ensures { use_of result ≡ in_front (says_of r.now) (use_of u) }
{
    if u.reached {
        Use {
            reached: true,
            refusal: first_of(r, u.refusal),
        }
    } else {
        u
    }
}

/// One command in front of what is behind it.
pub fn use_cmd(target: Spot, k: &FormCmd, u: Use) -> Use
    ensures { use_of result ≡ use_cmds (spot_of target) (form_cmd_of k.now ∷ []) (use_of u) }
{
    match k {
        FormCmd::Claims(s, _, r) => {
            if is_spot(*s, target) {
                Use {
                    reached: true,
                    refusal: first_of(r, u.refusal),
                }
            } else {
                in_front(r, u)
            }
        }
        FormCmd::Supposes(_, r) => in_front(r, u),
    }
}

#[tactic(auto, using(crate::proofs::Onward::use_rules))]
fn use_cmds(target: Spot, cmds: &[FormCmd], u: Use) -> Use
    ensures { use_of result ≡ use_cmds (spot_of target) (form_cmds_of cmds.now) (use_of u) }
{
    let mut made = u;
    let mut left: &[FormCmd] = cmds;
    while let Some((last, before)) = left.split_last() {
        made = use_cmd(target, last, made);
        left = before;
    }
    made
}

/// What is reached at a later block; nothing where there is none.
pub fn use_later(later: &VecDeque<Use>, to: usize) -> Use
    ensures { use_of result ≡ use_later (map use_of later.now.items) to }
{
    match later.get(to) {
        Some(u) => *u,
        None => unused(),
    }
}

fn use_edge(target: Spot, later: &VecDeque<Use>, e: &FormEdge, rest: Use) -> Use
    ensures { use_of result ≡ use_either (use_cmds (spot_of target) (form_cmds_of e.now.cmds.items) (use_later (map use_of later.now.items) e.now.to)) (use_of rest) }
{
    let u = use_cmds(target, &e.cmds, use_later(later, e.to));
    Use {
        reached: u.reached || rest.reached,
        refusal: match u.refusal {
            Some(e) => Some(e),
            None => rest.refusal,
        },
    }
}

/// What is reached on some way.
#[tactic(auto, using(crate::proofs::Onward::use_rules))]
pub fn use_edges(target: Spot, later: &VecDeque<Use>, edges: &[FormEdge]) -> Use
    ensures { use_of result ≡ use_edges (spot_of target) (map use_of later.now.items) (map form_edge_of edges.now) }
{
    let mut made = unused();
    let mut left: &[FormEdge] = edges;
    while let Some((last, before)) = left.split_last() {
        made = use_edge(target, later, last, made);
        left = before;
    }
    made
}

fn use_block(target: Spot, later: &VecDeque<Use>, b: &FormBlock) -> Use
    ensures { use_of result ≡ use_block (spot_of target) (map use_of later.now.items) (form_block_of b.now) }
{
    let on = use_edges(target, later, &b.next);
    use_cmds(target, &b.cmds, on)
}

/// What is reached from each block on.
#[tactic(auto, using(crate::proofs::Onward::uses_rules))]
pub fn uses(alloc: Global, target: Spot, blocks: &[FormBlock]) -> Result<VecDeque<Use>, AllocError>
    ensures { IfOk result (λ made. map use_of made.items ≡ uses (spot_of target) (map form_block_of blocks.now)) }
{
    let mut made = VecDeque::new(alloc);
    let mut left: &[FormBlock] = blocks;
    while let Some((last, before)) = left.split_last() {
        let u = use_block(target, &made, last);
        made.push_front(u)?;
        left = before;
    }
    Ok(made)
}

/// The first operation that leaves 128 bits, of the commands from which the target's check is reached.
pub fn refused(
    alloc: Global,
    target: Spot,
    blocks: &[FormBlock],
) -> Result<Option<OutOfRange>, AllocError>
    ensures { IfOk result (λ made. made ≡ refused (spot_of target) (map form_block_of blocks.now)) }
{
    let made = uses(alloc, target, blocks)?;
    Ok(use_later(&made, 0).refusal)
}
