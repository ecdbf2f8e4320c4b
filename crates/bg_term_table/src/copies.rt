//! Copies of expressions.
ghost use Rattle.std.specs.Prelude.{◌≡◌, map, IfOk};
ghost use Rattle.bg_ast.specs.Resolved as r;
ghost use Rattle.bg_ast.specs.Views.{ex_of, exs_of, link_view, bracket_view};

use bg_ast::resolved::{Bracket, Expr, Link};
use bg_base::Pos;
use std::alloc::{AllocError, Global};

/// An application.
#[tactic(auto, using(crate::proofs::Copied::forms))]
fn apply_node(pos: Pos, function: u32, args: Vec<Expr>) -> Expr
    ensures { ex_of result ≡ r.Apply pos function (exs_of (map ex_of args.items)) }
{
    Expr::Apply(pos, function, args)
}

/// A copy, form by form.
#[tactic(auto, using(crate::proofs::Copied::forms))]
#[cycle(copy_expr)]
pub fn copy(alloc: Global, e: &Expr) -> Result<Expr, AllocError>
    ensures { IfOk result (λ x. ex_of x ≡ ex_of e.now) }
{
    match e {
        Expr::Number(pos, n) => Ok(Expr::Number(*pos, *n)),
        Expr::Truth(pos, b) => Ok(Expr::Truth(*pos, *b)),
        Expr::Constant(pos, k) => Ok(Expr::Constant(*pos, *k)),
        Expr::Read(pos, x) => Ok(Expr::Read(*pos, *x)),
        Expr::Apply(pos, function, args) => {
            let made = copy_all(alloc, args)?;
            Ok(apply_node(*pos, *function, made))
        }
        Expr::Old(pos, e) => {
            let made = copy(alloc, e)?;
            Ok(Expr::Old(*pos, Box::new(alloc, made)?))
        }
        Expr::Parens(pos, e) => {
            let made = copy(alloc, e)?;
            Ok(Expr::Parens(*pos, Box::new(alloc, made)?))
        }
        Expr::Prefix(signs, e) => {
            let signs = signs.to_vec(alloc)?;
            let made = copy(alloc, e)?;
            Ok(Expr::Prefix(signs, Box::new(alloc, made)?))
        }
        Expr::Postfix(e, brackets) => {
            let made = copy(alloc, e)?;
            let behind = copy_brackets(alloc, brackets)?;
            Ok(Expr::Postfix(Box::new(alloc, made)?, behind))
        }
        Expr::Chain(e, links) => {
            let made = copy(alloc, e)?;
            let behind = copy_links(alloc, links)?;
            Ok(Expr::Chain(Box::new(alloc, made)?, behind))
        }
    }
}

/// The same of the expressions of a list.
#[tactic(auto, using(crate::proofs::Copied::forms))]
#[cycle(copy_expr)]
pub fn copy_all(alloc: Global, es: &[Expr]) -> Result<Vec<Expr>, AllocError>
    ensures { IfOk result (λ made. map ex_of made.items ≡ map ex_of es.now) }
{
    let mut made = Vec::new(alloc);
    for e in es {
        let e = copy(alloc, e)?;
        made.push(e)?;
    }
    Ok(made)
}

#[tactic(auto, using(crate::proofs::Copied::forms))]
#[cycle(copy_expr)]
fn copy_bracket(alloc: Global, bracket: &Bracket) -> Result<Bracket, AllocError>
    ensures { IfOk result (λ b. bracket_view b ≡ bracket_view bracket.now) }
{
    match bracket {
        Bracket::Select(pos, indices) => {
            let indices = copy_all(alloc, indices)?;
            Ok(Bracket::Select(*pos, indices))
        }
        Bracket::Update(pos, indices, value) => {
            let indices = copy_all(alloc, indices)?;
            let value = copy(alloc, value)?;
            Ok(Bracket::Update(*pos, indices, value))
        }
    }
}

#[tactic(auto, using(crate::proofs::Copied::forms))]
#[cycle(copy_expr)]
fn copy_brackets(alloc: Global, brackets: &[Bracket]) -> Result<Vec<Bracket>, AllocError>
    ensures { IfOk result (λ made. map bracket_view made.items ≡ map bracket_view brackets.now) }
{
    let mut made = Vec::new(alloc);
    for b in brackets {
        let b = copy_bracket(alloc, b)?;
        made.push(b)?;
    }
    Ok(made)
}

#[tactic(auto, using(crate::proofs::Copied::forms))]
#[cycle(copy_expr)]
fn copy_links(alloc: Global, links: &[Link]) -> Result<Vec<Link>, AllocError>
    ensures { IfOk result (λ made. map link_view made.items ≡ map link_view links.now) }
{
    let mut made = Vec::new(alloc);
    for l in links {
        let operand = copy(alloc, &l.operand)?;
        made.push(Link {
            pos: l.pos,
            sign: l.sign,
            operand,
        })?;
    }
    Ok(made)
}
