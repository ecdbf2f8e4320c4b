//! Whether a certificate has a text.
ghost use Rattle.std.specs.Prelude.{◌≡◌, ◌&&◌, map, option_map};
ghost use Rattle.std.specs.List.{list_all};
ghost use Rattle.bg_base.specs.Exact.{fits};
ghost use Rattle.bg_certtext.specs.Views.{part_of, value_of, slot_of, given_of, entry_of, function_of, interp_of, row_of, node_of, section_of, cert_of};
ghost use Rattle.bg_certtext.specs.Spellable.{is_name, is_type, is_number, are_terms, is_row, is_literal, is_step, are_steps, is_node, are_trees, is_stated, is_section, is_part, is_index, is_value, is_given, is_entry, is_function, is_interp, is_spellable};
ghost use Rattle.bg_certtext.specs.Orders.{is_item};

use crate::draft::children;
use crate::parts::is_factor;
use crate::sorted::{are_entries, are_slots};
use crate::text::{
    CertText, Entry, Function, Given, Interp, Part, Section, Slot, Stated, Term, TextNode, TextRow,
    Value,
};
use crate::words::{is_name, is_type};
use bg_cert::Named;
use bg_rows::Step;

/// Whether a number has a numeral.
fn is_number(n: u128) -> bool
    ensures { result ≡ is_number n }
{
    n < 170141183460469231731687303715884105728
}

fn are_names(names: &[&[u8]]) -> bool
    ensures { result ≡ list_all is_name (map (λ w. w.now) names.now) }
{
    names.iter().all(|name| is_name(name))
}

/// Whether terms rise and have numerals, and their factors are factors of a row.
fn are_terms(terms: &[Term]) -> bool
    ensures { result ≡ are_terms 0 terms.now }
{
    let mut low = 0;
    for t in terms {
        if !(low <= t.term && (is_number(t.term) && is_factor(t.by))) {
            return false;
        }
        low = t.term + 1;
    }
    true
}

fn is_row(r: &TextRow) -> bool
    ensures { result ≡ is_row (row_of r.now) }
{
    let _bound = r.bound;
    are_terms(&r.terms)
}

fn are_rows(rows: &[TextRow]) -> bool
    ensures { result ≡ list_all is_row (map row_of rows.now) }
{
    rows.iter().all(|r| is_row(r))
}

fn is_literal(l: &Named) -> bool
    ensures { result ≡ is_literal l.now }
{
    match l {
        Named::OfAtom(a, _) => is_number(*a),
        Named::OfRow(r, _) => is_number(*r),
    }
}

fn are_literals(literals: &[Named]) -> bool
    ensures { result ≡ list_all is_literal literals.now }
{
    literals.iter().all(|l| is_literal(l))
}

/// Whether the step of row `n` has a text.
fn is_step(n: u128, step: &Step) -> bool
    ensures { result ≡ is_step n step.now }
{
    match step {
        Step::Path(j) => is_number(*j),
        Step::Sum(r, p, s, q) => {
            *r < n && (is_number(*r) && (*s < n && (is_number(*s) && (0 <= *p && 0 <= *q))))
        }
        Step::Tight(r) => *r < n && is_number(*r),
    }
}

fn are_steps(steps: &[Step]) -> bool
    ensures { result ≡ are_steps 0 steps.now }
{
    for (n, step) in steps.iter().enumerate() {
        if !is_step(n as u128, step) {
            return false;
        }
    }
    true
}

/// Whether a term and a bound have numerals; each `i128` does.
fn is_bound(x: u128, _k: i128) -> bool
    ensures { result ≡ (is_number x && fits _k) }
{
    is_number(x)
}

fn is_node(node: &TextNode<'_>) -> bool
    ensures { result ≡ is_node (node_of node.now) }
{
    match node {
        TextNode::Split(a) => is_number(*a),
        TextNode::Bound(x, k) => is_bound(*x, *k),
        TextNode::Cut(r) => is_number(*r),
        TextNode::Lemma(literals) => are_literals(literals),
        TextNode::Clause(c) => is_number(*c),
        TextNode::Unit(name) => is_name(name),
        TextNode::Known(i) => is_number(*i),
        TextNode::Rows(steps) => !steps.is_empty() && are_steps(steps),
    }
}

fn are_nodes(nodes: &[TextNode<'_>]) -> bool
    ensures { result ≡ list_all is_node (map node_of nodes.now) }
{
    nodes.iter().all(|node| is_node(node))
}

/// Whether the nodes are one whole tree.
fn is_tree(nodes: &[TextNode<'_>]) -> bool
    ensures { result ≡ are_trees 1 (map node_of nodes.now) }
{
    let mut trees: u128 = 1;
    for node in nodes {
        if trees == 0 {
            return false;
        }
        trees = children(node) as u128 + (trees - 1);
    }
    trees == 0
}

/// Whether two numbers have numerals.
fn are_numbers(a: u128, b: u128) -> bool
    ensures { result ≡ (is_number a && is_number b) }
{
    is_number(a) && is_number(b)
}

fn is_stated(stated: Stated) -> bool
    ensures { result ≡ is_stated stated }
{
    match stated {
        Stated::Pick(m, a) => are_numbers(m, a),
        Stated::Names(m, n) => are_numbers(m, n),
        Stated::Congruent(a, b) => are_numbers(a, b),
        Stated::AtIndex(u, a) => are_numbers(u, a),
        Stated::Elsewhere(u, a, b) => is_number(u) && are_numbers(a, b),
        Stated::Apart(a, b) => are_numbers(a, b),
        Stated::Unequal(a, b) => are_numbers(a, b),
    }
}

fn are_stated(stated: &[Stated]) -> bool
    ensures { result ≡ list_all is_stated stated.now }
{
    stated.iter().all(|s| is_stated(*s))
}

fn is_section(s: &Section<'_>) -> bool
    ensures { result ≡ is_section (section_of s.now) }
{
    is_number(s.implementation)
        && (is_number(s.place)
            && (are_stated(&s.stated)
                && (are_rows(&s.table) && (are_nodes(&s.nodes) && is_tree(&s.nodes)))))
}

fn are_sections(sections: &[Section<'_>]) -> bool
    ensures { result ≡ list_all is_section (map section_of sections.now) }
{
    sections.iter().all(|s| is_section(s))
}

/// Each `i128` has a numeral.
fn has_numeral(_k: i128) -> bool
    ensures { result ≡ fits _k }
{
    true
}

/// Whether an element of this type has a word; each `i128` has a numeral.
fn is_element(t: &[u8], _k: i128) -> bool
    ensures { result ≡ (is_type t.now && fits _k) }
{
    is_type(t)
}

fn is_part(part: Part<'_>) -> bool
    ensures { result ≡ is_part (part_of part.entry) }
{
    match part {
        Part::Number(_) => true,
        Part::Element(t, k) => is_element(t, k),
    }
}

fn are_parts(parts: &[Part<'_>]) -> bool
    ensures { result ≡ list_all is_part (map part_of parts.now) }
{
    parts.iter().all(|part| is_part(*part))
}

fn is_index(index: &[Part<'_>]) -> bool
    ensures { result ≡ is_index (map part_of index.now) }
{
    !index.is_empty() && are_parts(index)
}

/// Whether a value has a text.
#[tactic(auto, using(crate::proofs::Items::value_forms))]
#[cycle(is_value)]
fn is_value(value: &Value<'_>) -> bool
    ensures { result ≡ is_value (value_of value.now) }
{
    match value {
        Value::Truth(_) => true,
        Value::Number(k) => has_numeral(*k),
        Value::Element(t, k) => is_element(t, *k),
        Value::Map(slots, default) => {
            is_value(default) && (are_items(slots) && are_slots(slots, default))
        }
    }
}

/// Whether the indices and values of slots have texts.
#[cycle(is_value)]
fn are_items(slots: &[Slot<'_>]) -> bool
    ensures { result ≡ list_all is_item (map slot_of slots.now) }
{
    for slot in slots {
        if !is_index(&slot.index) || !is_value(&slot.value) {
            return false;
        }
    }
    true
}

fn is_given(given: &Given<'_>) -> bool
    ensures { result ≡ is_given (given_of given.now) }
{
    is_name(given.name) && is_value(&given.value)
}

fn are_givens(givens: &[Given<'_>]) -> bool
    ensures { result ≡ list_all is_given (map given_of givens.now) }
{
    givens.iter().all(|given| is_given(given))
}

fn are_values(values: &[Value<'_>]) -> bool
    ensures { result ≡ list_all is_value (map value_of values.now) }
{
    values.iter().all(|value| is_value(value))
}

fn is_entry(entry: &Entry<'_>) -> bool
    ensures { result ≡ is_entry (entry_of entry.now) }
{
    are_values(&entry.key) && is_value(&entry.value)
}

fn are_spelled(entries: &[Entry<'_>]) -> bool
    ensures { result ≡ list_all is_entry (map entry_of entries.now) }
{
    entries.iter().all(|entry| is_entry(entry))
}

fn is_function(f: &Function<'_>) -> bool
    ensures { result ≡ is_function (function_of f.now) }
{
    is_name(f.name)
        && (are_spelled(&f.entries)
            && (is_value(&f.default) && are_entries(&f.default, &f.entries)))
}

fn are_functions(functions: &[Function<'_>]) -> bool
    ensures { result ≡ list_all is_function (map function_of functions.now) }
{
    functions.iter().all(|f| is_function(f))
}

fn is_interp(interp: &Option<Interp<'_>>) -> bool
    ensures { result ≡ is_interp (option_map interp_of interp.now) }
{
    match interp {
        None => true,
        Some(interp) => are_givens(&interp.constants) && are_functions(&interp.functions),
    }
}

/// Whether a certificate has a text: its names are words, its numbers have numerals, the tables of functions are in order,
/// and the nodes of each place are one whole tree. Takes time for each constant, entry, name, row and node.
pub fn is_spellable(cert: &CertText<'_>) -> bool
    ensures { result ≡ is_spellable (cert_of cert.now) }
{
    is_interp(&cert.interp) && (are_names(&cert.retained) && are_sections(&cert.sections))
}
