//! What is kept of a clause.
ghost use Rattle.std.specs.Prelude.{◌≡◌, ◌++◌, drop, map, List, IfOk, OnOk};
ghost use Rattle.bg_text.specs.Views as v;
ghost use Rattle.bg_text.specs.Views.{option_of as optional};
ghost use Rattle.bg_ast.specs.Views.{candidate_of, clause_of};
ghost use Rattle.bg_names.specs.Clauses as c;
ghost use Rattle.bg_words.specs.Sets.{has};
ghost use Rattle.bg_keep.specs.Told as s;
ghost use Rattle.bg_keep.specs.Guesses.{names_of};
ghost use Rattle.bg_keep.specs.Views.{listed};

use crate::guesses::{Names, push_guesses};
use bg_ast::resolved::Clause;
use bg_base::{CandId, Pos};
use bg_text::{TreeClause, TreeExpr, TreeLink};
use bg_words::CandSet;
use std::alloc::{AllocError, Global};

/// Whether a candidate is in the set.
pub fn is_in(set: &CandSet, c: CandId) -> bool
    ensures { result ≡ has set.now c.0 }
{
    c.0 < set.declared() && set.has(c)
}

/// An expression without the parentheses around it.
fn bare(e: TreeExpr) -> TreeExpr
    ensures { v.ex_of result ≡ c.bare (v.ex_of e) }
{
    match e {
        TreeExpr::Parens(_, inside) => bare(Box::into_inner(inside)),
        other => other,
    }
}

/// A chain, or its one operand.
fn chain(alloc: Global, first: TreeExpr, links: Vec<TreeLink>) -> Result<TreeExpr, AllocError>
    ensures { IfOk result (λ x. v.ex_of x ≡ c.chain_of (v.ex_of first) (v.links_of (map v.link_view links.items))) }
{
    if links.len() == 0 {
        return Ok(first);
    }
    Ok(TreeExpr::Chain(Box::new(alloc, first)?, links))
}

/// An expression without its first operand, where it is a chain.
fn behind_first(alloc: Global, e: TreeExpr) -> Result<TreeExpr, AllocError>
    ensures { IfOk result (λ x. v.ex_of x ≡ s.behind_first (v.ex_of e)) }
{
    match e {
        TreeExpr::Chain(first, mut links) => {
            if links.len() == 0 {
                return Ok(TreeExpr::Chain(first, links));
            }
            let link = links.remove(0);
            chain(alloc, link.operand, links)
        }
        other => Ok(other),
    }
}

/// What is kept of a clause of this candidate, or of none.
pub fn kept_clause(
    alloc: Global,
    set: &CandSet,
    candidate: Option<CandId>,
    k: TreeClause,
) -> Result<Option<TreeClause>, AllocError>
    ensures { IfOk result (λ made. listed (optional v.clause_of made) ≡ s.told_clause set.now (optional candidate_of candidate) (v.clause_of k)) }
{
    let Some(c) = candidate else {
        return Ok(Some(k));
    };
    if !is_in(set, c) {
        return Ok(None);
    }
    let TreeClause {
        pos,
        is_free,
        attributes,
        formula,
    } = k;
    let formula = behind_first(alloc, bare(formula))?;
    Ok(Some(TreeClause {
        pos,
        is_free,
        attributes,
        formula,
    }))
}

/// Adds what is kept of a clause.
fn push_clause(
    alloc: Global,
    set: &CandSet,
    candidate: Option<CandId>,
    k: TreeClause,
    out: &mut Vec<TreeClause>,
) -> Result<(), AllocError>
    ensures { OnOk result (map v.clause_of out.new.items ≡ map v.clause_of out.old.items ++ s.told_clause set.now (optional candidate_of candidate) (v.clause_of k)) }
{
    if let Some(kept) = kept_clause(alloc, set, candidate, k)? {
        out.push(kept)?;
    }
    Ok(())
}

/// The candidate of the clause at this place, where there is one.
pub fn candidate_at(clauses: &[Clause], at: usize) -> Option<CandId>
    ensures { optional candidate_of result ≡ s.first_candidate (drop at (map clause_of clauses.now)) }
{
    match clauses.get(at) {
        Some(k) => k.candidate,
        None => None,
    }
}

/// The place behind this one, where a clause is here.
#[tactic(auto, using(crate::proofs::Rows::place_inside, crate::proofs::Rows::place_end))]
pub fn next_clause(clauses: &[Clause], at: usize) -> usize
    ensures { drop result (map clause_of clauses.now) ≡ drop 1 (drop at (map clause_of clauses.now)) }
{
    if clauses.len() <= at { at } else { at + 1 }
}

/// The clauses from this place on.
#[tactic(auto, using(crate::proofs::Framed::none_behind))]
pub fn behind(clauses: &[Clause], at: usize) -> &[Clause]
    ensures { map clause_of result.now ≡ drop at (map clause_of clauses.now) }
{
    if at < clauses.len() {
        &clauses[at..]
    } else {
        &[]
    }
}

/// A clause that stands for nothing.
fn blank(alloc: Global) -> TreeClause {
    let pos = Pos { line: 0, column: 0 };
    TreeClause {
        pos,
        is_free: true,
        attributes: Vec::new(alloc),
        formula: TreeExpr::Truth(pos, true),
    }
}

/// What is kept of clauses, which are taken from their places, and of the guesses behind them.
pub fn kept_clauses(
    alloc: Global,
    set: &CandSet,
    names: &Names<'_>,
    told: &[Clause],
    ks: &mut [TreeClause],
) -> Result<Vec<TreeClause>, AllocError>
    ensures { IfOk result (λ made. map v.clause_of made.items ≡ s.told_clauses set.now (names_of names.now) (map clause_of told.now) (map v.clause_of ks.old)) }
{
    let mut made = Vec::new(alloc);
    for i in 0..ks.len() {
        let k = std::mem::replace(&mut ks[i], blank(alloc));
        push_clause(alloc, set, candidate_at(told, i), k, &mut made)?;
    }
    push_guesses(alloc, set, names, behind(told, ks.len()), &mut made)?;
    Ok(made)
}
