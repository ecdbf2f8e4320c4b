//! The forms of expressions.
ghost use Rattle.std.specs.Prelude.{◌≡◌, map, IfOk};
ghost use Rattle.bg_ast.specs.Meaning as m;
ghost use Rattle.bg_ast.specs.Views.{ex_of, links_of, link_view};
ghost use Rattle.bg_rows.specs.Rows.{Told};
ghost use Rattle.bg_linear.specs.Forms.{linear};
ghost use Rattle.bg_linear.specs.Views.{lin_of, made_of};
ghost use Rattle.bg_linear.specs.Chains.{chain_forms, is_implies, signed_form};

use crate::leaf::{number, variable};
use crate::lin::Lin;
use crate::made::{Made, joined, prefixed};
use bg_ast::resolved::{Expr, Link, Variable};
use bg_rows::Refused;
use bg_text::{InfixSign, TreePrefix};
use std::alloc::{AllocError, Global};

pub fn is_implies(sign: InfixSign) -> bool
    ensures { result ≡ is_implies sign }
{
    sign == InfixSign::Implies
}

/// A form behind prefix signs, of which the first is the outermost.
#[tactic(auto, using(crate::proofs::Chained::signed_last))]
fn signed(alloc: Global, signs: &[TreePrefix], f: Made) -> Result<Made, AllocError>
    ensures { IfOk result (λ x. made_of x ≡ signed_form signs.now (made_of f)) }
{
    let mut made = f;
    let mut left: &[TreePrefix] = signs;
    while let Some((last, before)) = left.split_last() {
        made = prefixed(alloc, last.sign, made)?;
        left = before;
    }
    Ok(made)
}

/// A chain behind a form.
#[tactic(auto, using(crate::proofs::Chained::chain_rules))]
#[cycle(forming)]
fn chain(alloc: Global, links: &[Link], first: Made) -> Result<Made, AllocError>
    ensures { IfOk result (λ x. made_of x ≡ chain_forms (made_of first) (links_of (map link_view links.now))) }
{
    let mut made = first;
    for l in links {
        if is_implies(l.sign) {
            return Ok(Made::Listed(number(alloc, 0)));
        }
        let g = form(alloc, &l.operand)?;
        made = joined(alloc, l.sign, made, g)?;
    }
    Ok(made)
}

/// The form of an expression; of what is no number it is 0.
#[tactic(auto, using(crate::proofs::Chained::chain_rules))]
#[cycle(forming)]
fn form(alloc: Global, e: &Expr) -> Result<Made, AllocError>
    ensures { IfOk result (λ x. made_of x ≡ linear (m.ex_of (ex_of e.now))) }
{
    match e {
        Expr::Number(_, n) => Ok(Made::Listed(number(alloc, *n))),
        Expr::Read(_, Variable::Local(j)) => Ok(Made::Listed(variable(alloc, *j)?)),
        Expr::Parens(_, e) => form(alloc, e),
        Expr::Prefix(signs, e) => {
            let f = form(alloc, e)?;
            signed(alloc, signs, f)
        }
        Expr::Postfix(e, brackets) => {
            if brackets.is_empty() {
                form(alloc, e)
            } else {
                Ok(Made::Listed(number(alloc, 0)))
            }
        }
        Expr::Chain(e, links) => {
            let f = form(alloc, e)?;
            chain(alloc, links, f)
        }
        Expr::Truth(_, _) => Ok(Made::Listed(number(alloc, 0))),
        Expr::Constant(_, _) => Ok(Made::Listed(number(alloc, 0))),
        Expr::Read(_, Variable::Global(_)) => Ok(Made::Listed(number(alloc, 0))),
        Expr::Apply(_, _, _) => Ok(Made::Listed(number(alloc, 0))),
        Expr::Old(_, _) => Ok(Made::Listed(number(alloc, 0))),
    }
}

/// The linear form of a chain of these links behind an expression, as `linear` has it.
#[tactic(auto, using(crate::proofs::Chained::chain_is))]
pub fn linear_of_chain(alloc: Global, first: &Expr, links: &[Link]) -> Result<Lin, Refused>
    ensures { Told lin_of result (linear (m.chained (m.ex_of (ex_of first.now)) (links_of (map link_view links.now)))) }
{
    let f = form(alloc, first)?;
    let made = chain(alloc, links, f)?;
    made.list(alloc)
}

/// The linear form of an expression over incarnations, of which incarnation j is variable j.
///
/// It is made from the inside out and from left to right: in each step the coefficients by variable number, then the constant.
/// Refused at the first operation that leaves the range of 128 bits. Of what is no number the form is 0.
pub fn linear(alloc: Global, e: &Expr) -> Result<Lin, Refused>
    ensures { Told lin_of result (linear (m.ex_of (ex_of e.now))) }
{
    let made = form(alloc, e)?;
    made.list(alloc)
}
