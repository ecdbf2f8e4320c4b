//! The check of a certificate while it is written: of its nodes the lemmas alone are kept.
ghost use Rattle.std.specs.Prelude.{◌≡◌, ◌+◌, IfOk, OnOk, IsTrue, length};
ghost use Rattle.bg_formula.specs.Formulas.{formula_of};
ghost use Rattle.bg_cert.specs.Certs.{node_of};
ghost use Rattle.bg_cert.specs.Walks.{has};
ghost use Rattle.bg_cert.specs.Tours.{IsTour, atoms_on};
ghost use Rattle.bg_cert.specs.Written.{IsClosed, KnowsBelow, Seen, is_lemma};

use crate::cert::{Cert, Node};
use crate::check::{Numbered, step};
use crate::table::table_below;
use crate::tour::{Tour, first_tour};
use bg_formula::{Clauses, Linear};
use std::alloc::{AllocError, Global};

/// Where the nodes of a certificate come from, one by one. Nothing is asked of them: what is made of them is checked.
pub trait Nodes {
    /// The next node, if there is one.
    fn next_node(&mut self) -> Result<Option<Node>, AllocError>;
}

fn is_lemma(node: &Node) -> bool
    ensures { result ≡ is_lemma (node_of node.now) }
{
    matches!(node, Node::Lemma(_))
}

/// One node: whether it may stand here, and which paths are open after it. It is kept where it is a lemma.
fn take(
    alloc: Global,
    f: &Clauses,
    set: &[bool],
    kept: &mut Cert,
    tour: &mut Tour,
    node: Node,
) -> Result<bool, AllocError>
    requires is_tour { IsTour tour.old }
    requires is_open { IsTrue tour.old.is_open }
    requires sized { atoms_on tour.old ≡ length f.now.atoms.items + length kept.old.table.items }
    requires known { KnowsBelow (length kept.old.nodes.items) tour.old }
    ensures table { OnOk result (kept.new.table ≡ kept.old.table) }
    ensures tours { IfOk result (λ yes. IsTrue yes → IsTour tour.new) }
    ensures sized { IfOk result (λ yes. IsTrue yes → atoms_on tour.new ≡ atoms_on tour.old) }
    ensures known { IfOk result (λ yes. IsTrue yes → KnowsBelow (length kept.new.nodes.items) tour.new) }
    ensures seen { IfOk result (λ yes. IsTrue yes → Seen (formula_of f.now) (has set.now) kept.old tour.old → Seen (formula_of f.now) (has set.now) kept.new tour.new) }
{
    let k = kept.nodes.len();
    kept.nodes.push(node)?;
    let here = Numbered {
        node: &kept.nodes[k],
        k,
    };
    let is_kept = is_lemma(here.node);
    let fits = step(alloc, f, set, kept, tour, here)?;
    if !is_kept {
        kept.nodes.truncate(k);
    }
    Ok(fits)
}

/// Whether nodes that come one by one, at most so many, are an accepted certificate with this table. Takes what `accepts` takes, but for the
/// memory of the nodes: of these the lemmas alone are kept.
pub fn accepts_written<N: Nodes>(
    alloc: Global,
    f: &Clauses,
    set: &[bool],
    table: Vec<Linear>,
    nodes: &mut N,
    most: usize,
) -> Result<bool, AllocError>
    ensures { IfOk result (λ yes. IsTrue yes → IsClosed (formula_of f.now) (has set.now)) }
{
    if !table_below(f.terms, &table) {
        return Ok(false);
    }
    let mut tour = first_tour(alloc, f.atoms.len() + table.len())?;
    let mut kept = Cert {
        table,
        nodes: Vec::new(alloc),
    };
    for _ in 0..most {
        let Some(node) = nodes.next_node()? else {
            return Ok(!tour.is_open);
        };
        if !tour.is_open || !take(alloc, f, set, &mut kept, &mut tour, node)? {
            return Ok(false);
        }
    }
    Ok(false)
}
