//! Whether the commands of blocks say truths.
ghost use Rattle.std.specs.Prelude.{◌≡◌, map};
ghost use Rattle.bg_text.specs.Views.{option_of};
ghost use Rattle.bg_ast.specs.Meaning as m;
ghost use Rattle.bg_ast.specs.Views.{ex_of, candidate_of};
ghost use Rattle.bg_incarnate.specs.Views.{cmds_of, edge_of, passive_block_of};
ghost use Rattle.bg_formed.specs.Formed.{fits_candidate};
ghost use Rattle.bg_linear.specs.Sorts.{kind_ex, is_truth, is_number};
ghost use Rattle.bg_atoms.specs.Made.{behind};
ghost use Rattle.bg_atoms.specs.Sorted.{cmds_sorted, edges_sorted, blocks_sorted};

use bg_ast::resolved::{Expr, Link};
use bg_base::CandId;
use bg_incarnate::{Edge, PassiveBlock, PassiveCmd};
use bg_linear::{Kind, Sort, kind, kind_of_chain};

fn fits_candidate(candidates: u32, b: Option<CandId>) -> bool
    ensures { result ≡ fits_candidate candidates (option_of candidate_of b) }
{
    match b {
        None => true,
        Some(b) => b.0 < candidates,
    }
}

/// Whether an expression is a truth over incarnations of these sorts.
fn is_truth(sorts: &[Sort], e: &Expr) -> bool
    ensures { result ≡ is_truth (kind_ex sorts.now (m.ex_of (ex_of e.now))) }
{
    match kind(sorts, e) {
        Some(Kind::Truth) => true,
        Some(Kind::Constant) => false,
        Some(Kind::Number) => false,
        None => false,
    }
}

fn is_number_kind(kind: Option<Kind>) -> bool
    ensures { result ≡ is_number kind }
{
    match kind {
        Some(Kind::Truth) => false,
        Some(Kind::Constant) => true,
        Some(Kind::Number) => true,
        None => false,
    }
}

/// Whether an expression is a number over incarnations of these sorts.
pub fn is_number(sorts: &[Sort], e: &Expr) -> bool
    ensures { result ≡ is_number (kind_ex sorts.now (m.ex_of (ex_of e.now))) }
{
    is_number_kind(kind(sorts, e))
}

/// Whether a chain behind an expression is one.
pub fn is_chain_number(sorts: &[Sort], first: &Expr, links: &[Link]) -> bool
    ensures { result ≡ is_number (kind_ex sorts.now (behind (m.ex_of (ex_of first.now)) links.now)) }
{
    is_number_kind(kind_of_chain(sorts, first, links))
}

fn cmds_sorted(sorts: &[Sort], candidates: u32, cmds: &[PassiveCmd]) -> bool
    ensures { result ≡ cmds_sorted sorts.now candidates (cmds_of cmds.now) }
{
    for k in cmds {
        match k {
            PassiveCmd::Claims(_, b, e) => {
                if !fits_candidate(candidates, *b) {
                    return false;
                }
                if !is_truth(sorts, e) {
                    return false;
                }
            }
            PassiveCmd::Supposes(b, e) => {
                if !fits_candidate(candidates, *b) {
                    return false;
                }
                if !is_truth(sorts, e) {
                    return false;
                }
            }
        }
    }
    true
}

fn edges_sorted(sorts: &[Sort], candidates: u32, edges: &[Edge]) -> bool
    ensures { result ≡ edges_sorted sorts.now candidates (map edge_of edges.now) }
{
    for e in edges {
        if !cmds_sorted(sorts, candidates, &e.cmds) {
            return false;
        }
    }
    true
}

/// Whether each command says a truth over incarnations of these sorts, and names a candidate below this number.
pub fn blocks_sorted(sorts: &[Sort], candidates: u32, blocks: &[PassiveBlock]) -> bool
    ensures { result ≡ blocks_sorted sorts.now candidates (map passive_block_of blocks.now) }
{
    for b in blocks {
        if !cmds_sorted(sorts, candidates, &b.cmds) {
            return false;
        }
        if !edges_sorted(sorts, candidates, &b.next) {
            return false;
        }
    }
    true
}
