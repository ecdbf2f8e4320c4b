//! Nodes and rows as the text has them.
ghost use Rattle.std.specs.Prelude.{◌≡◌, map, IfOk};
ghost use Rattle.bg_text.specs.Views.{id_of};
ghost use Rattle.bg_certtext.specs.Views.{row_of, node_of};
ghost use Rattle.bg_certify.specs.Spelled.{spelled_line, spelled_term, spelled_row, spelled_node};

use crate::names::name_at;
use bg_cert::Node;
use bg_certtext::{Stated, Term, TextNode, TextRow};
use bg_formula::Linear;
use bg_rows::Entry;
use bg_term_table::Line;
use bg_text::Name;
use std::alloc::{AllocError, Global};

/// A node; a unit has the name of its candidate.
fn text_node<'p>(alloc: Global, names: &'p [Name], node: &Node) -> Result<TextNode<'p>, AllocError>
    ensures { IfOk result (λ made. node_of made ≡ spelled_node (map id_of names.now) node.now) }
{
    match node {
        Node::Split(a) => Ok(TextNode::Split(*a)),
        Node::Bound(x, k) => Ok(TextNode::Bound(*x, *k)),
        Node::Cut(r) => Ok(TextNode::Cut(*r)),
        Node::Lemma(literals) => Ok(TextNode::Lemma(literals.to_vec(alloc)?)),
        Node::Clause(c) => Ok(TextNode::Clause(*c)),
        Node::Unit(c) => Ok(TextNode::Unit(name_at(names, *c))),
        Node::Known(i) => Ok(TextNode::Known(*i)),
        Node::Rows(steps) => Ok(TextNode::Rows(steps.to_vec(alloc)?)),
    }
}

/// The nodes of a certificate.
pub(crate) fn text_nodes<'p>(
    alloc: Global,
    names: &'p [Name],
    nodes: &[Node],
) -> Result<Vec<TextNode<'p>>, AllocError>
    ensures { IfOk result (λ made. map node_of made.items ≡ map (spelled_node (map id_of names.now)) nodes.now) }
{
    let mut made = Vec::new(alloc);
    for node in nodes {
        made.push(text_node(alloc, names, node)?)?;
    }
    Ok(made)
}

fn text_line(line: Line) -> Stated
    ensures { result ≡ spelled_line line }
{
    match line {
        Line::Pick(m, a) => Stated::Pick(u128::from(m), u128::from(a)),
        Line::Names(m, o) => Stated::Names(u128::from(m), u128::from(o)),
        Line::Congruent(a, b) => Stated::Congruent(u128::from(a), u128::from(b)),
        Line::AtIndex(u, s) => Stated::AtIndex(u128::from(u), u128::from(s)),
        Line::Elsewhere(u, s, r) => {
            Stated::Elsewhere(u128::from(u), u128::from(s), u128::from(r))
        }
        Line::Apart(s, r) => Stated::Apart(u128::from(s), u128::from(r)),
    }
}

/// The lines of terms and instances.
pub(crate) fn text_lines(alloc: Global, lines: &[Line]) -> Result<Vec<Stated>, AllocError>
    ensures { IfOk result (λ made. made.items ≡ map spelled_line lines.now) }
{
    let mut made = Vec::new(alloc);
    for line in lines {
        made.push(text_line(*line))?;
    }
    Ok(made)
}

/// The terms of a row.
fn text_terms(alloc: Global, entries: &[Entry]) -> Result<Vec<Term>, AllocError>
    ensures { IfOk result (λ made. made.items ≡ map spelled_term entries.now) }
{
    let mut made = Vec::new(alloc);
    for entry in entries {
        made.push(Term {
            term: u128::from(entry.variable),
            by: entry.by,
        })?;
    }
    Ok(made)
}

/// A row without its denial.
fn text_row(alloc: Global, a: &Linear) -> Result<TextRow, AllocError>
    ensures { IfOk result (λ made. row_of made ≡ spelled_row a.now) }
{
    Ok(TextRow {
        bound: a.row.bound,
        terms: text_terms(alloc, a.row.entries.as_slice())?,
    })
}

/// The rows of a certificate's table.
pub(crate) fn text_table(alloc: Global, table: &[Linear]) -> Result<Vec<TextRow>, AllocError>
    ensures { IfOk result (λ made. map row_of made.items ≡ map spelled_row table.now) }
{
    let mut made = Vec::new(alloc);
    for a in table {
        made.push(text_row(alloc, a)?)?;
    }
    Ok(made)
}
