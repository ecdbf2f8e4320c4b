//! The sorts of expressions.
ghost use Rattle.std.specs.Prelude.{◌≡◌, map, slice_get};
ghost use Rattle.bg_ast.specs.Meaning as m;
ghost use Rattle.bg_ast.specs.Views.{ex_of, links_of, link_view};
ghost use Rattle.bg_linear.specs.Sorts.{kind_at, kind_ex};
ghost use Rattle.bg_linear.specs.ChainKinds.{chain_kinds, folded, next_waiting, next_kind, signed_kind};

use crate::formed::is_implies;
use crate::kinds::{all_so_far, is_truth, kind_at, prefix_kind, sign_kind, truth_if};
use crate::scalar::{Kind, Sort};
use bg_ast::resolved::{Expr, Link, Variable};
use bg_text::{InfixSign, TreePrefix};

/// The kind of the incarnation with this number.
fn incarnation(sorts: &[Sort], j: u32) -> Option<Kind>
    ensures { result ≡ kind_at (slice_get sorts.now j) }
{
    match sorts.get(j as usize) {
        Some(s) => kind_at(Some(*s)),
        None => kind_at(None),
    }
}

/// A kind behind prefix signs, of which the first is the outermost.
#[tactic(auto, using(crate::proofs::Kinded::signed_last))]
fn signed_kind(signs: &[TreePrefix], kind: Option<Kind>) -> Option<Kind>
    ensures { result ≡ signed_kind signs.now kind }
{
    let mut made = kind;
    let mut left: &[TreePrefix] = signs;
    while let Some((last, before)) = left.split_last() {
        made = prefix_kind(last.sign, made);
        left = before;
    }
    made
}

/// What waits behind one more sign.
fn next_waiting(sign: InfixSign, waiting: Option<bool>, a: Option<Kind>) -> Option<bool>
    ensures { result ≡ next_waiting sign waiting a }
{
    if is_implies(sign) {
        Some(all_so_far(waiting) && is_truth(a))
    } else {
        waiting
    }
}

/// The kind behind one more sign.
fn next_kind(sign: InfixSign, a: Option<Kind>, b: Option<Kind>) -> Option<Kind>
    ensures { result ≡ next_kind sign a b }
{
    if is_implies(sign) {
        b
    } else {
        sign_kind(sign, a, b)
    }
}

/// The kind of a chain, of which this waits.
fn folded(waiting: Option<bool>, kind: Option<Kind>) -> Option<Kind>
    ensures { result ≡ folded waiting kind }
{
    match waiting {
        Some(all) => truth_if(all && is_truth(kind)),
        None => kind,
    }
}

/// The kind of a chain behind its first operand.
#[tactic(auto, using(crate::proofs::Kinded::kind_rules))]
#[cycle(kinds)]
fn chain_kind(sorts: &[Sort], links: &[Link], first: Option<Kind>) -> Option<Kind>
    ensures { result ≡ chain_kinds sorts.now first (links_of (map link_view links.now)) }
{
    let mut waiting = None;
    let mut made = first;
    for l in links {
        let k = kind(sorts, &l.operand);
        waiting = next_waiting(l.sign, waiting, made);
        made = next_kind(l.sign, made, k);
    }
    folded(waiting, made)
}

/// The kind of an expression over incarnations of these sorts; None where it isn't well sorted, or names one that isn't there.
#[tactic(auto, using(crate::proofs::Kinded::kind_rules))]
#[cycle(kinds)]
pub fn kind(sorts: &[Sort], e: &Expr) -> Option<Kind>
    ensures { result ≡ kind_ex sorts.now (m.ex_of (ex_of e.now)) }
{
    match e {
        Expr::Number(_, _) => Some(Kind::Constant),
        Expr::Truth(_, _) => Some(Kind::Truth),
        Expr::Read(_, Variable::Local(j)) => incarnation(sorts, *j),
        Expr::Parens(_, e) => kind(sorts, e),
        Expr::Prefix(signs, e) => signed_kind(signs, kind(sorts, e)),
        Expr::Postfix(e, brackets) => {
            if brackets.is_empty() {
                kind(sorts, e)
            } else {
                None
            }
        }
        Expr::Chain(e, links) => {
            let first = kind(sorts, e);
            chain_kind(sorts, links, first)
        }
        Expr::Constant(_, _) => None,
        Expr::Read(_, Variable::Global(_)) => None,
        Expr::Apply(_, _, _) => None,
        Expr::Old(_, _) => None,
    }
}

/// The kind of a chain of these links behind an expression, as `kind` has it.
#[tactic(auto, using(crate::proofs::Kinded::chain_is))]
pub fn kind_of_chain(sorts: &[Sort], first: &Expr, links: &[Link]) -> Option<Kind>
    ensures { result ≡ kind_ex sorts.now (m.chained (m.ex_of (ex_of first.now)) (links_of (map link_view links.now))) }
{
    let made = kind(sorts, first);
    chain_kind(sorts, links, made)
}
