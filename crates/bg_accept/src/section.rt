//! A section of a certificate's text as a certificate of its place.
ghost use Rattle.std.specs.Prelude.{◌≡◌, IfOk, map, true};
ghost use Rattle.std.specs.List.{list_all};
ghost use Rattle.bg_text.specs.Views.{id_of};
ghost use Rattle.bg_formula.specs.Formulas.{formula_of};
ghost use Rattle.bg_cert.specs.Certs as c;
ghost use Rattle.bg_cert.specs.Walks.{has};
ghost use Rattle.bg_certtext.specs.Views.{node_of, section_of};
ghost use Rattle.bg_certtext.specs.Spellable.{is_row};
ghost use Rattle.bg_accept.specs.Sections.{node_in, accepts_section};

use crate::numbers::{Numbers, number_of};
use crate::rows::table_of;
use bg_cert::{Cert, Node, accepts};
use bg_certtext::{Section, TextNode};
use bg_formula::Clauses;
use std::alloc::{AllocError, Global};

/// A node; a unit is that of the candidate of its name.
fn node_of(alloc: Global, numbers: &Numbers, node: &TextNode) -> Result<Node, AllocError>
    ensures { IfOk result (λ made. c.node_of made ≡ node_in (map id_of numbers.now.candidates.now) (node_of node.now)) }
{
    match node {
        TextNode::Split(a) => Ok(Node::Split(*a)),
        TextNode::Bound(x, k) => Ok(Node::Bound(*x, *k)),
        TextNode::Cut(r) => Ok(Node::Cut(*r)),
        TextNode::Lemma(literals) => Ok(Node::Lemma(literals.to_vec(alloc)?)),
        TextNode::Clause(c) => Ok(Node::Clause(*c)),
        TextNode::Unit(name) => Ok(Node::Unit(number_of(numbers, name))),
        TextNode::Known(i) => Ok(Node::Known(*i)),
        TextNode::Rows(steps) => Ok(Node::Rows(steps.to_vec(alloc)?)),
    }
}

/// The nodes, in their order.
fn nodes_of(alloc: Global, numbers: &Numbers, nodes: &[TextNode]) -> Result<Vec<Node>, AllocError>
    ensures { IfOk result (λ made. map c.node_of made.items ≡ map (node_in (map id_of numbers.now.candidates.now)) (map node_of nodes.now)) }
{
    let mut made = Vec::new(alloc);
    for k in 0..nodes.len() {
        made.push(node_of(alloc, numbers, &nodes[k])?)?;
    }
    Ok(made)
}

/// Whether a section is an accepted certificate of these clauses, where the candidates of the set are units.
pub fn accepts_section(
    alloc: Global,
    f: &Clauses,
    set: &[bool],
    numbers: &Numbers,
    section: &Section,
) -> Result<bool, AllocError>
    requires rows { list_all is_row (section_of section.now).table ≡ true }
    ensures { IfOk result (λ yes. yes ≡ accepts_section (formula_of f.now) (has set.now) (map id_of numbers.now.candidates.now) (section_of section.now)) }
{
    match table_of(alloc, f.terms, &section.table)? {
        None => Ok(false),
        Some(table) => {
            let nodes = nodes_of(alloc, numbers, &section.nodes)?;
            accepts(alloc, f, set, &Cert { table, nodes })
        }
    }
}
