//! Clauses, and the candidates that guard them.
ghost use Rattle.std.specs.Prelude.{◌≡◌, IfOk, IfErr, OnOk, map};
ghost use Rattle.bg_text.specs.Views as v;
ghost use Rattle.bg_text.specs.Trees as t;
ghost use Rattle.bg_text.specs.Views.{option_of as optional};
ghost use Rattle.bg_ast.specs.Views.{ex_of, clause_of, candidate_of as candidate_number};
ghost use Rattle.bg_names.specs.Faults.{better};
ghost use Rattle.bg_names.specs.Exprs.{ex_faults, named_ex};
ghost use Rattle.bg_names.specs.Clauses.{bare, candidate_of, guard_in, guard_unless, chain_of, said, guarding, clause_faults, named_clause};
ghost use Rattle.bg_names.specs.Views.{scope_of, first_of, guarded_of};
ghost use Rattle.bg_names.specs.declared.error.ResolveError.TheVariants.{Memory};

use crate::error::ResolveError;
use crate::exprs::{expr, links_behind};
use crate::notes::Notes;
use crate::scope::{Meaning, Scope, look_up};
use bg_ast::resolved::{Clause, Expr};
use bg_base::CandId;
use bg_text::{InfixSign, TreeClause, TreeExpr, TreeLink};
use std::alloc::Global;

/// A candidate before the outermost `==>`, and the operands behind it.
#[derive(Clone, Copy)]
pub struct Guarded<'a> {
    pub candidate: u32,
    pub operand: &'a TreeExpr,
    pub rest: &'a [TreeLink],
}

/// An expression without the parentheses around it.
fn bare(e: &TreeExpr) -> &TreeExpr
    ensures { v.ex_of result.now ≡ bare (v.ex_of e.now) }
{
    match e {
        TreeExpr::Parens(_, e) => bare(e),
        _ => e,
    }
}

/// The candidate that an expression names.
fn candidate(scope: &Scope, e: &TreeExpr) -> Result<Option<u32>, ResolveError>
    ensures ok { IfOk result (λ k. k ≡ candidate_of (scope_of scope.now) (v.ex_of e.now)) }
    ensures err { IfErr result (λ e. e ≡ Memory) }
{
    match e {
        TreeExpr::Named(name) => match look_up(scope, &name.text)? {
            Meaning::Candidate(k) => Ok(Some(k)),
            _ => Ok(None),
        },
        _ => Ok(None),
    }
}

/// The candidate that a first operand names, before the operands behind it.
fn behind<'a>(
    scope: &Scope,
    first: &TreeExpr,
    links: &'a [TreeLink],
) -> Result<Option<Guarded<'a>>, ResolveError>
    ensures ok { IfOk result (λ g. optional guarded_of g ≡ guard_in (scope_of scope.now) (t.Chain (v.ex_of first.now) (v.links_of (map v.link_view links.now)))) }
    ensures err { IfErr result (λ e. e ≡ Memory) }
{
    let Some(link) = links.first() else {
        return Ok(None);
    };
    match link.sign {
        InfixSign::Implies => match candidate(scope, bare(first))? {
            Some(candidate) => Ok(Some(Guarded {
                candidate,
                operand: &link.operand,
                rest: &links[1..],
            })),
            None => Ok(None),
        },
        _ => Ok(None),
    }
}

/// The candidate before the outermost `==>`.
fn guard<'a>(scope: &Scope, e: &'a TreeExpr) -> Result<Option<Guarded<'a>>, ResolveError>
    ensures ok { IfOk result (λ g. optional guarded_of g ≡ guard_in (scope_of scope.now) (v.ex_of e.now)) }
    ensures err { IfErr result (λ e. e ≡ Memory) }
{
    match e {
        TreeExpr::Chain(first, links) => behind(scope, first, links),
        _ => Ok(None),
    }
}

/// The candidate that guards a clause.
fn guard_unless<'a>(
    is_free: bool,
    scope: &Scope,
    e: &'a TreeExpr,
) -> Result<Option<Guarded<'a>>, ResolveError>
    ensures ok { IfOk result (λ g. optional guarded_of g ≡ guard_unless is_free (scope_of scope.now) (v.ex_of e.now)) }
    ensures err { IfErr result (λ e. e ≡ Memory) }
{
    if is_free {
        Ok(None)
    } else {
        guard(scope, bare(e))
    }
}

/// A chain, or its one operand.
fn chain<'a>(
    alloc: Global,
    scope: &Scope,
    notes: &mut Notes<'a>,
    operand: &'a TreeExpr,
    rest: &'a [TreeLink],
) -> Result<Expr, ResolveError>
    ensures made { IfOk result (λ x. ex_of x ≡ named_ex (scope_of scope.now) (chain_of (v.ex_of operand.now) (v.links_of (map v.link_view rest.now)))) }
    ensures first { OnOk result (first_of notes.new ≡ better (first_of notes.old) (ex_faults (scope_of scope.now) (chain_of (v.ex_of operand.now) (v.links_of (map v.link_view rest.now))))) }
    ensures err { IfErr result (λ e. e ≡ Memory) }
{
    let made = expr(alloc, scope, notes, operand)?;
    if rest.len() == 0 {
        return Ok(made);
    }
    let links = links_behind(alloc, scope, notes, rest)?;
    Ok(Expr::Chain(Box::new(alloc, made)?, links))
}

/// What a clause says behind its candidate.
fn said<'a>(
    alloc: Global,
    scope: &Scope,
    notes: &mut Notes<'a>,
    guard: Option<Guarded<'a>>,
    e: &'a TreeExpr,
) -> Result<Expr, ResolveError>
    ensures made { IfOk result (λ x. ex_of x ≡ named_ex (scope_of scope.now) (said (optional guarded_of guard.entry) (v.ex_of e.now))) }
    ensures first { OnOk result (first_of notes.new ≡ better (first_of notes.old) (ex_faults (scope_of scope.now) (said (optional guarded_of guard.entry) (v.ex_of e.now)))) }
    ensures err { IfErr result (λ e. e ≡ Memory) }
{
    match guard {
        Some(g) => chain(alloc, scope, notes, g.operand, g.rest),
        None => expr(alloc, scope, notes, e),
    }
}

fn candidate_id(guard: Option<Guarded>) -> Option<CandId>
    ensures { optional candidate_number result ≡ guarding (optional guarded_of guard.entry) }
{
    match guard {
        Some(g) => Some(CandId(g.candidate)),
        None => None,
    }
}

/// A clause with this number. Errors: Memory.
pub fn clause<'a>(
    alloc: Global,
    scope: &Scope,
    notes: &mut Notes<'a>,
    id: u32,
    k: &'a TreeClause,
) -> Result<Clause, ResolveError>
    ensures made { IfOk result (λ x. clause_of x ≡ named_clause (scope_of scope.now) id (v.clause_of k.now)) }
    ensures first { OnOk result (first_of notes.new ≡ better (first_of notes.old) (clause_faults (scope_of scope.now) (v.clause_of k.now))) }
    ensures err { IfErr result (λ e. e ≡ Memory) }
{
    let guard = guard_unless(k.is_free, scope, &k.formula)?;
    let formula = said(alloc, scope, notes, guard, &k.formula)?;
    Ok(Clause {
        pos: k.pos,
        id,
        is_free: k.is_free,
        candidate: candidate_id(guard),
        formula,
    })
}
