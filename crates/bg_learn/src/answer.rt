//! The public call.
ghost use Rattle.std.specs.Prelude.{IfOk};
ghost use Rattle.bg_formula.specs.Formulas.{formula_of};
ghost use Rattle.bg_cert.specs.Walks.{has};
ghost use Rattle.bg_learn.specs.Proposals.{IsProposal};

use crate::search::{End, search};
use crate::write::{Writer, most, new_writer, next_node};
use bg_cert::{Cert, Node, Nodes, accepts_written};
use bg_formula::Clauses;
use bg_trail::{Engine, Limits, Link, Reason, at_place, go_back, keep, new_engine, reason_of};
use std::alloc::{AllocError, Global};

/// How many atoms a formula may have: a literal's number has 32 bits, and rows of the certificate's own come behind.
const MOST_ATOMS: usize = 1 << 28;

/// What is asked of a search: the targets of the terms' values, by the terms' numbers, 0 behind the list's end; how much may be done; and
/// whether a certificate is kept.
#[derive(Clone, Copy)]
pub struct Aim<'a> {
    pub targets: &'a [i128],
    pub limits: Limits,
    pub keeps: bool,
}

/// What a search proposes. But for a certificate that isn't kept nothing is proved of it: who uses it checks it.
#[derive(Drop)]
pub enum Proposal {
    /// A certificate that the formula has no valuation in which the candidates of the set are true.
    Proof(Cert),
    /// There is such a certificate. It isn't kept: the checker accepted it while it was written.
    Shown,
    /// The value of each atom of the formula, with which all its clauses hold, and its rows at some whole numbers.
    Values(Vec<bool>),
    /// It isn't known: the budget is used up, or a number left 128 bits.
    Nothing,
}

/// What is true at the root, in its order, with reasons that are kept.
fn facts(e: &mut Engine<'_>) -> Result<Vec<Link>, AllocError> {
    let mut made = Vec::new(e.alloc);
    for place in 0..e.trail.len {
        if let Some(l) = at_place(&e.trail, place) {
            let why = reason_of(&e.reasons, l);
            let reason = keep(&mut e.lemmas, &e.reasons.parts, why)?;
            made.push(Link { literal: l, reason })?;
        }
    }
    Ok(made)
}

/// The certificate of an engine that came to a conflict at the root, while it is written.
#[derive(Drop)]
struct Written<'a, 'f> {
    engine: &'a Engine<'f>,
    writer: Writer,
}

impl<'a, 'f> Nodes for Written<'a, 'f> {
    fn next_node(&mut self) -> Result<Option<Node>, AllocError> {
        next_node(self.engine, &mut self.writer)
    }
}

/// All nodes of a certificate.
fn all_nodes(e: &Engine<'_>, w: &mut Writer) -> Result<Vec<Node>, AllocError> {
    let mut made = Vec::new(e.alloc);
    for _ in 0..most(e, w) {
        let Some(node) = next_node(e, w)? else {
            break;
        };
        made.push(node)?;
    }
    made.shrink_to_fit();
    Ok(made)
}

/// The certificate of a conflict at the root of a formula's search; where it isn't kept, that the checker accepts it.
fn proof(
    e: &mut Engine<'_>,
    f: &Clauses,
    set: &[bool],
    conflict: Reason,
    keeps: bool,
) -> Result<Proposal, AllocError>
    ensures { IfOk result (λ p. IsProposal (formula_of f.now) (has set.now) keeps p) }
{
    let end = keep(&mut e.lemmas, &e.reasons.parts, conflict)?;
    go_back(e, 0);
    let facts = facts(e)?;
    let table = std::mem::replace(&mut e.table.rows, Vec::new(e.alloc));
    let mut writer = new_writer(e, facts, end)?;
    if keeps {
        let nodes = all_nodes(e, &mut writer)?;
        return Ok(Proposal::Proof(Cert { table, nodes }));
    }
    let most = most(e, &writer);
    let mut written = Written { engine: e, writer };
    if accepts_written(e.alloc, f, set, table, &mut written, most)? {
        return Ok(Proposal::Shown);
    }
    Ok(Proposal::Nothing)
}

/// Searches for a certificate that the formula has no valuation in which the set's candidates are true, or for values with which it
/// holds. Never more nodes count than the limits allow; where more rows are tightened nothing is proposed; and time and memory are
/// bounded by the limits and the formula. Clauses are learned from conflicts (Silva and Sakallah 1996), over atoms that are bounds of
/// columns of a simplex (Dutertre and de Moura 2006); equalities that hold at the root are solved, and after some lemmas the dilemma
/// rule (Sheeran and Stålmarck 1998) brings bounds and equalities (Karr 1976) that the ways of a branch have in common. The terms' values
/// begin at their targets: so values that are found are mostly near them. A certificate that isn't kept is checked while it is written,
/// so that never all its nodes are there: where the checker accepts it that is proposed, and else nothing.
pub fn propose(
    alloc: Global,
    f: &Clauses,
    set: &[bool],
    aim: Aim<'_>,
) -> Result<Proposal, AllocError>
    ensures { IfOk result (λ p. IsProposal (formula_of f.now) (has set.now) aim.entry.keeps p) }
{
    if f.atoms.len() > MOST_ATOMS {
        return Ok(Proposal::Nothing);
    }
    let mut e = new_engine(alloc, f, aim.limits)?;
    let end = search(&mut e, set, aim.targets)?;
    if e.counts.tightened > aim.limits.rows {
        return Ok(Proposal::Nothing);
    }
    match end {
        End::Closed(conflict) => proof(&mut e, f, set, conflict, aim.keeps),
        End::Found(values) => Ok(Proposal::Values(values)),
        End::Unknown => Ok(Proposal::Nothing),
    }
}
