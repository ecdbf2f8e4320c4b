//! Certificates: what was learned, written as a case tree. A literal of the root is a split, or a cut, whose other side is a leaf; a
//! lemma is a lemma node, whose first child is the chain of its proof. The proof of a lemma that one reason alone names stands in the
//! place of that reason's leaf. Where several reasons use the same rows, a lemma before them says that these can't all hold, and its
//! number stands in the place of the steps.

use crate::groups::{known_lemma, put_known, wants_lemma};
use crate::path::{Path, is_decided, new_path, row_number, walk, walk_back};
use crate::trim::{Needs, derive, end_number, link_number, needs_of, times_named};
use bg_cert::{Named, Node};
use bg_rows::Step;
use bg_simplex::Lit;
use bg_solved::{Deriver, new_deriver};
use bg_trail::{
    Engine, Lemma, Link, Reason, atom_of, begin_of, clause_at, is_positive, items, negated, unpack,
};
use std::alloc::AllocError;
use std::collections::VecDeque;

/// What is to be written.
#[derive(Clone, Copy)]
enum What {
    /// What closes the path by a reason of this number.
    Close(Reason, usize),
    /// A lemma's chain, from this link on.
    Chain(usize, usize),
    /// Nothing: the proof of this lemma is written, and the path knows it.
    Known(usize),
    /// What is needed, in the order in which it was learned: from this lemma on, and from this literal of the root on.
    Root(usize, usize),
}

/// What is to be written on the path of the first so many literals and one more, if one is given.
#[derive(Clone, Copy)]
struct Task {
    depth: usize,
    literal: Option<Lit>,
    what: What,
}

/// The literals of the root, and why they can't all hold; what is needed; the nodes that are written and not taken yet; what is to be
/// written behind them, the next last; the path to the next node; the numbers under which the path knows lemmas, and how many it knows;
/// and a list of steps for derivations.
#[derive(Drop)]
pub struct Writer {
    facts: Vec<Link>,
    end: Reason,
    needs: Needs,
    nodes: VecDeque<Node>,
    later: Vec<Task>,
    path: Path,
    known: Vec<Option<u128>>,
    count: u128,
    deriver: Deriver,
}

/// A literal in a lemma node.
fn name(e: &Engine<'_>, l: Lit) -> Named {
    let a = atom_of(l);
    match a.checked_sub(e.formula.atoms.len()) {
        Some(r) => Named::OfRow(r as u128, is_positive(l)),
        None => Named::OfAtom(a as u128, is_positive(l)),
    }
}

/// The node that decides a literal's atom.
fn decides(e: &Engine<'_>, l: Lit) -> Node {
    match name(e, l) {
        Named::OfRow(r, _) => Node::Cut(r),
        Named::OfAtom(a, _) => Node::Split(a),
    }
}

/// The leaf of a false clause: one of the formula, or a lemma that the path knows.
fn clause_leaf(e: &Engine<'_>, w: &Writer, c: u32) -> Node {
    match (c as usize).checked_sub(e.formula.clauses.len()) {
        Some(k) => match w.known.get(k) {
            Some(Some(number)) => Node::Known(*number),
            _ => Node::Known(u128::MAX),
        },
        None => Node::Clause(c as u128),
    }
}

/// The derived steps, over the rows of the path.
fn numbered(e: &Engine<'_>, w: &Writer) -> Result<Vec<Step>, AllocError> {
    let mut made = Vec::with_capacity(e.alloc, w.deriver.steps.len())?;
    for step in &w.deriver.steps {
        let step = match *step {
            Step::Path(j) => Step::Path(path_row(w, j)),
            other => other,
        };
        made.push(step)?;
    }
    Ok(made)
}

/// The number on the path of the row that a derivation uses as its `j`-th.
fn path_row(w: &Writer, j: u128) -> u128 {
    let Ok(j) = usize::try_from(j) else {
        return u128::MAX;
    };
    match w.deriver.uses.get(j) {
        Some(l) => row_number(&w.path, *l),
        None => u128::MAX,
    }
}

/// The leaf that closes the path by a reason of this number.
fn leaf(e: &Engine<'_>, w: &mut Writer, r: Reason, number: usize) -> Result<Node, AllocError> {
    match r {
        Reason::Clause(c) => Ok(clause_leaf(e, w, c)),
        Reason::Unit(c, _) => Ok(Node::Unit(c as u128)),
        Reason::Both(_, _) | Reason::Rows(_) => {
            if let Some(known) = known_lemma(&w.needs.groups, number) {
                return Ok(Node::Known(known));
            }
            derive(e, &mut w.deriver, r)?;
            Ok(Node::Rows(numbered(e, w)?))
        }
        Reason::Decision => Ok(Node::Rows(Vec::new(e.alloc))),
    }
}

/// The lemma whose proof stands in the place of a reason's leaf: no other reason names it.
fn only_here(e: &Engine<'_>, w: &Writer, r: Reason) -> Option<usize> {
    let Reason::Clause(c) = r else {
        return None;
    };
    let k = (c as usize).checked_sub(e.formula.clauses.len())?;
    if times_named(&w.needs, k) == 1 {
        Some(k)
    } else {
        None
    }
}

/// Lets this be written next, on the path of the first so many literals and one more, if one is given.
fn put_off(
    w: &mut Writer,
    depth: usize,
    literal: Option<Lit>,
    what: What,
) -> Result<(), AllocError> {
    w.later.push(Task {
        depth,
        literal,
        what,
    })?;
    Ok(())
}

/// Closes the path by a reason of this number.
fn close(e: &Engine<'_>, w: &mut Writer, r: Reason, number: usize) -> Result<(), AllocError> {
    match only_here(e, w, r) {
        Some(k) => {
            let depth = w.path.literals.len();
            put_off(w, depth, None, What::Chain(k, 0))
        }
        None => {
            let made = leaf(e, w, r, number)?;
            w.nodes.push_back(made)?;
            Ok(())
        }
    }
}

/// Decides a literal that follows by a reason of this number: that closes the other side, and on this side comes what is given.
fn forced(
    e: &Engine<'_>,
    w: &mut Writer,
    link: Link,
    number: usize,
    then: What,
) -> Result<(), AllocError> {
    let depth = w.path.literals.len();
    let l = link.literal;
    let other = What::Close(link.reason, number);
    w.nodes.push_back(decides(e, l))?;
    if is_positive(l) {
        put_off(w, depth, Some(negated(l)), other)?;
        put_off(w, depth, Some(l), then)
    } else {
        put_off(w, depth, Some(l), then)?;
        put_off(w, depth, Some(negated(l)), other)
    }
}

/// Goes on with a lemma's chain from a link on. Where the path decides that link's literal it is left out, and where it denies the literal
/// the link's reason closes the path.
fn go_on(e: &Engine<'_>, w: &mut Writer, k: usize, at: usize) -> Result<(), AllocError> {
    let Some(lemma) = e.lemmas.all.get(k) else {
        return Ok(());
    };
    let depth = w.path.literals.len();
    let Some(link) = items(&e.lemmas.chain, lemma.chain).get(at).copied() else {
        let end = What::Close(lemma.end, end_number(e, &w.facts, k));
        return put_off(w, depth, None, end);
    };
    let number = link_number(&w.facts, begin_of(lemma.chain).saturating_add(at));
    let link = unpack(link);
    let then = What::Chain(k, at.saturating_add(1));
    if is_decided(&w.path, link.literal) {
        put_off(w, depth, None, then)
    } else if is_decided(&w.path, negated(link.literal)) {
        put_off(w, depth, None, What::Close(link.reason, number))
    } else {
        forced(e, w, link, number, then)
    }
}

/// Writes what is to be written next.
fn write_next(e: &Engine<'_>, w: &mut Writer, task: Task) -> Result<(), AllocError> {
    walk_back(e.formula, &mut w.path, task.depth);
    if let Some(l) = task.literal {
        walk(e.formula, &mut w.path, l)?;
    }
    match task.what {
        What::Close(r, number) => close(e, w, r, number),
        What::Chain(k, at) => go_on(e, w, k, at),
        What::Known(k) => {
            know_lemma(w, k);
            Ok(())
        }
        What::Root(k, place) => root(e, w, k, place),
    }
}

/// The lemma is written: the path knows it. Answers its number.
fn know(w: &mut Writer) -> u128 {
    let number = w.count;
    w.count = number.saturating_add(1);
    number
}

/// The literals of a lemma that not all these hold, but for those that the path decides; the path decides them then.
fn shared_names(e: &Engine<'_>, w: &mut Writer) -> Result<Vec<Named>, AllocError> {
    let mut names = Vec::new(e.alloc);
    for at in 0..w.deriver.uses.len() {
        if let Some(l) = w.deriver.uses.get(at).copied() {
            if !is_decided(&w.path, l) {
                names.push(name(e, negated(l)))?;
                walk(e.formula, &mut w.path, l)?;
            }
        }
    }
    names.shrink_to_fit();
    Ok(names)
}

/// Writes the lemma that the rows which a reason uses can't all hold, if others use them too and it isn't written yet.
fn write_shared(
    e: &Engine<'_>,
    w: &mut Writer,
    r: Reason,
    number: usize,
) -> Result<(), AllocError> {
    if !wants_lemma(&w.needs.groups, number) {
        return Ok(());
    }
    let depth = w.path.literals.len();
    derive(e, &mut w.deriver, r)?;
    let names = shared_names(e, w)?;
    w.nodes.push_back(Node::Lemma(names))?;
    let steps = numbered(e, w)?;
    w.nodes.push_back(Node::Rows(steps))?;
    walk_back(e.formula, &mut w.path, depth);
    let known = know(w);
    put_known(&mut w.needs.groups, number, known);
    Ok(())
}

/// Writes the lemmas that reasons of a lemma's proof share with others.
fn write_shares(e: &Engine<'_>, w: &mut Writer, lemma: &Lemma, k: usize) -> Result<(), AllocError> {
    let mut number = link_number(&w.facts, begin_of(lemma.chain));
    for link in items(&e.lemmas.chain, lemma.chain) {
        write_shared(e, w, unpack(*link).reason, number)?;
        number = number.saturating_add(1);
    }
    let number = end_number(e, &w.facts, k);
    write_shared(e, w, lemma.end, number)
}

/// The node of a lemma; the path denies its literals.
fn lemma_node(e: &Engine<'_>, w: &mut Writer, clause: u32) -> Result<Node, AllocError> {
    let clause = clause_at(&e.base, clause);
    let mut names = Vec::with_capacity(e.alloc, clause.len())?;
    for l in clause {
        names.push(name(e, *l))?;
        walk(e.formula, &mut w.path, negated(*l))?;
    }
    Ok(Node::Lemma(names))
}

/// The proof of a lemma is written: the path knows it.
fn know_lemma(w: &mut Writer, k: usize) {
    let number = know(w);
    if let Some(known) = w.known.get_mut(k) {
        *known = Some(number);
    }
}

/// Writes a lemma, and lets its proof come next.
fn write_lemma(e: &Engine<'_>, w: &mut Writer, clause: u32, k: usize) -> Result<(), AllocError> {
    let depth = w.path.literals.len();
    put_off(w, depth, None, What::Known(k))?;
    let node = lemma_node(e, w, clause)?;
    w.nodes.push_back(node)?;
    go_on(e, w, k, 0)
}

/// Writes a literal of the root: what is given comes on its side.
fn write_fact(
    e: &Engine<'_>,
    w: &mut Writer,
    fact: Link,
    place: usize,
    then: What,
) -> Result<(), AllocError> {
    write_shared(e, w, fact.reason, place)?;
    forced(e, w, fact, place, then)
}

/// The first needed one of the literals of the root from a place on, up to another place.
fn next_fact(w: &Writer, from: usize, to: usize) -> Option<usize> {
    for place in from..to {
        if let Some(true) = w.needs.facts.get(place) {
            return Some(place);
        }
    }
    None
}

/// Writes a lemma if it is needed, and lets what is given come behind it. Of a lemma that is named once, only what its proof shares is
/// written here.
fn write_needed(
    e: &Engine<'_>,
    w: &mut Writer,
    lemma: &Lemma,
    k: usize,
    then: What,
) -> Result<(), AllocError> {
    let depth = w.path.literals.len();
    put_off(w, depth, None, then)?;
    let times = times_named(&w.needs, k);
    if times > 0 {
        write_shares(e, w, lemma, k)?;
    }
    if times > 1 {
        write_lemma(e, w, lemma.clause, k)?;
    }
    Ok(())
}

/// Writes what is needed next, from this lemma on and from this literal of the root on: the literals that were true at the root before
/// the lemma was learned come before it. Behind all comes the end.
fn root(e: &Engine<'_>, w: &mut Writer, k: usize, place: usize) -> Result<(), AllocError> {
    let lemma = e.lemmas.all.get(k);
    let to = match lemma {
        Some(lemma) => lemma.facts,
        None => w.facts.len(),
    };
    if let Some(at) = next_fact(w, place, to) {
        if let Some(fact) = w.facts.get(at).copied() {
            return write_fact(e, w, fact, at, What::Root(k, at.saturating_add(1)));
        }
    }
    match lemma {
        Some(lemma) => write_needed(e, w, lemma, k, What::Root(k.saturating_add(1), to)),
        None => {
            let number = end_number(e, &w.facts, k);
            close(e, w, w.end, number)
        }
    }
}

/// A writer at the root, before the first node of a certificate: of the literals that are true at the root, of the lemmas, and of the
/// conflict there, what is needed is written.
pub fn new_writer(e: &Engine<'_>, facts: Vec<Link>, end: Reason) -> Result<Writer, AllocError> {
    let mut deriver = new_deriver(e.alloc, &e.solved)?;
    let mut w = Writer {
        needs: needs_of(e, &mut deriver, &facts, end)?,
        facts,
        end,
        nodes: VecDeque::new(e.alloc),
        later: Vec::new(e.alloc),
        path: new_path(e.alloc, e.trail.atoms.len())?,
        known: vec![in e.alloc; None; e.lemmas.all.len()]?,
        count: 0,
        deriver,
    };
    put_off(&mut w, 0, None, What::Root(0, 0))?;
    Ok(w)
}

/// How many nodes there are at the most, and how often something is taken from what is to be written: for each literal of the root, each
/// link of a lemma's proof, and the end of each proof, four.
pub fn most(e: &Engine<'_>, w: &Writer) -> usize {
    end_number(e, &w.facts, e.lemmas.all.len())
        .saturating_add(1)
        .saturating_mul(4)
}

/// The next node, if there is one.
pub fn next_node(e: &Engine<'_>, w: &mut Writer) -> Result<Option<Node>, AllocError> {
    for _ in 0..most(e, w) {
        if let Some(node) = w.nodes.pop_front() {
            return Ok(Some(node));
        }
        let Some(task) = w.later.pop() else {
            return Ok(None);
        };
        write_next(e, w, task)?;
    }
    Ok(None)
}
