//! The text of a certificate.
ghost use Rattle.std.specs.Prelude.{◌≡◌, ◌++◌, ◌∷◌, [], OnOk, IfOk, map, flat_map, length, codes};
ghost use Rattle.std.specs.Fmt.{decimal, signed_decimal};
ghost use Rattle.bg_certtext.specs.Lines.{line, behind_space};
ghost use Rattle.bg_certtext.specs.Texts.{literal_word, step_words, node_lines, term_words, row_words, table_lines, place_words, section_lines, text_of};
ghost use Rattle.bg_rows.specs.declared.step.Step.TheVariants.{Sum};
ghost use Rattle.bg_certtext.specs.Views.{Bounds, Derives, row_of, node_of, section_of, cert_of};

use crate::front::{put_interp, put_retained};
use crate::put::{put_integer, put_line, put_number, put_numbered, put_pair};
use crate::stated::{put_stated, put_two};
use crate::text::{CertText, Section, Term, TextNode, TextRow};
use bg_cert::Named;
use bg_rows::Step;
use itoa::Buffer;
use std::alloc::{AllocError, Global};

/// A literal behind a space.
fn put_literal(out: &mut Vec<u8>, literal: Named) -> Result<(), AllocError>
    ensures { OnOk result (out.new.items ≡ out.old.items ++ behind_space (literal_word literal)) }
{
    let (n, front) = match literal {
        Named::OfAtom(a, true) => (a, b" +".as_slice()),
        Named::OfAtom(a, false) => (a, b" -".as_slice()),
        Named::OfRow(r, true) => (r, b" +#".as_slice()),
        Named::OfRow(r, false) => (r, b" -#".as_slice()),
    };
    out.extend_from_slice(front)?;
    let mut buffer = Buffer::new();
    out.extend_from_slice(buffer.format(n).as_bytes())
}

/// The line of a lemma.
fn put_lemma(out: &mut Vec<u8>, literals: &[Named]) -> Result<(), AllocError>
    ensures { OnOk result (out.new.items ≡ out.old.items ++ line (codes "lemma" ∷ map literal_word literals.now)) }
{
    out.extend_from_slice(b"lemma")?;
    for literal in literals {
        put_literal(out, *literal)?;
    }
    out.extend_from_slice(b"\n")
}

/// A number and a whole number, each behind a space.
fn put_both(out: &mut Vec<u8>, n: u128, k: i128) -> Result<(), AllocError>
    ensures { OnOk result (out.new.items ≡ out.old.items ++ (behind_space (decimal n) ++ behind_space (signed_decimal k))) }
{
    put_number(out, n)?;
    put_integer(out, k)
}

/// Two numbers, each with a whole number behind it.
fn put_four(out: &mut Vec<u8>, r: u128, p: i128, s: u128, q: i128) -> Result<(), AllocError>
    ensures { OnOk result (out.new.items ≡ out.old.items ++ flat_map behind_space (decimal r ∷ signed_decimal p ∷ decimal s ∷ signed_decimal q ∷ [])) }
{
    put_both(out, r, p)?;
    put_both(out, s, q)
}

/// The line of a sum.
fn put_sum(out: &mut Vec<u8>, r: u128, p: i128, s: u128, q: i128) -> Result<(), AllocError>
    ensures { OnOk result (out.new.items ≡ out.old.items ++ line (step_words (Sum r p s q))) }
{
    out.extend_from_slice(b"sum")?;
    put_four(out, r, p, s, q)?;
    out.push(b'\n')?;
    Ok(())
}

fn put_step(out: &mut Vec<u8>, step: Step) -> Result<(), AllocError>
    ensures { OnOk result (out.new.items ≡ out.old.items ++ line (step_words step)) }
{
    match step {
        Step::Path(j) => put_numbered(out, b"path", j),
        Step::Sum(r, p, s, q) => put_sum(out, r, p, s, q),
        Step::Tight(r) => put_numbered(out, b"tight", r),
    }
}

/// How many steps there are, and their lines.
fn put_steps(out: &mut Vec<u8>, steps: &[Step]) -> Result<(), AllocError>
    ensures { OnOk result (out.new.items ≡ out.old.items ++ flat_map line (node_lines (Derives steps.now))) }
{
    put_numbered(out, b"rows", steps.len() as u128)?;
    for step in steps {
        put_step(out, *step)?;
    }
    Ok(())
}

/// The line of a bound.
fn put_bound(out: &mut Vec<u8>, x: u128, k: i128) -> Result<(), AllocError>
    ensures { OnOk result (out.new.items ≡ out.old.items ++ flat_map line (node_lines (Bounds x k))) }
{
    out.extend_from_slice(b"bound")?;
    put_number(out, x)?;
    put_integer(out, k)?;
    out.extend_from_slice(b"\n")
}

fn put_node(out: &mut Vec<u8>, node: &TextNode<'_>) -> Result<(), AllocError>
    ensures { OnOk result (out.new.items ≡ out.old.items ++ flat_map line (node_lines (node_of node.now))) }
{
    match node {
        TextNode::Split(a) => put_numbered(out, b"split", *a),
        TextNode::Bound(x, k) => put_bound(out, *x, *k),
        TextNode::Cut(r) => put_numbered(out, b"cut", *r),
        TextNode::Lemma(literals) => put_lemma(out, literals),
        TextNode::Clause(c) => put_numbered(out, b"clause", *c),
        TextNode::Unit(name) => put_pair(out, b"unit", name),
        TextNode::Known(i) => put_numbered(out, b"known", *i),
        TextNode::Rows(steps) => put_steps(out, steps),
    }
}

/// A term's number and its factor, each behind a space.
fn put_term(out: &mut Vec<u8>, t: Term) -> Result<(), AllocError>
    ensures { OnOk result (out.new.items ≡ out.old.items ++ (behind_space (decimal t.term) ++ behind_space (signed_decimal t.by))) }
{
    put_number(out, t.term)?;
    put_integer(out, t.by)
}

fn put_row(out: &mut Vec<u8>, row: &TextRow) -> Result<(), AllocError>
    ensures { OnOk result (out.new.items ≡ out.old.items ++ line (row_words (row_of row.now))) }
{
    out.extend_from_slice(b"row")?;
    put_integer(out, row.bound)?;
    for t in &row.terms {
        put_term(out, *t)?;
    }
    out.extend_from_slice(b"\n")
}

/// The lines of a table, none where there is no row.
fn put_table(out: &mut Vec<u8>, table: &[TextRow]) -> Result<(), AllocError>
    ensures { OnOk result (out.new.items ≡ out.old.items ++ flat_map line (table_lines (map row_of table.now))) }
{
    if table.is_empty() {
        return Ok(());
    }
    put_numbered(out, b"table", table.len() as u128)?;
    for row in table {
        put_row(out, row)?;
    }
    Ok(())
}

/// The line of a place.
fn put_place(out: &mut Vec<u8>, implementation: u128, place: u128) -> Result<(), AllocError>
    ensures { OnOk result (out.new.items ≡ out.old.items ++ line (place_words implementation place)) }
{
    put_two(out, b"place", implementation, place)
}

fn put_nodes(out: &mut Vec<u8>, nodes: &[TextNode<'_>]) -> Result<(), AllocError>
    ensures { OnOk result (out.new.items ≡ out.old.items ++ flat_map line (flat_map node_lines (map node_of nodes.now))) }
{
    for node in nodes {
        put_node(out, node)?;
    }
    Ok(())
}

fn put_section(out: &mut Vec<u8>, section: &Section<'_>) -> Result<(), AllocError>
    ensures { OnOk result (out.new.items ≡ out.old.items ++ flat_map line (section_lines (section_of section.now))) }
{
    put_place(out, section.implementation, section.place)?;
    put_stated(out, &section.stated)?;
    put_table(out, &section.table)?;
    put_nodes(out, &section.nodes)
}

fn put_sections(out: &mut Vec<u8>, sections: &[Section<'_>]) -> Result<(), AllocError>
    ensures { OnOk result (out.new.items ≡ out.old.items ++ flat_map line (flat_map section_lines (map section_of sections.now))) }
{
    for section in sections {
        put_section(out, section)?;
    }
    Ok(())
}

/// The text of a certificate.
pub fn write(alloc: Global, cert: &CertText<'_>) -> Result<Vec<u8>, AllocError>
    ensures { IfOk result (λ bytes. bytes.items ≡ text_of (cert_of cert.now)) }
{
    let mut out = Vec::new(alloc);
    put_pair(&mut out, b"bg-cert", b"1")?;
    put_interp(&mut out, &cert.interp)?;
    put_retained(&mut out, &cert.retained)?;
    put_sections(&mut out, &cert.sections)?;
    put_line(&mut out, b"end")?;
    Ok(out)
}
