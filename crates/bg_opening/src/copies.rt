//! Copies of expressions.
ghost use Rattle.std.specs.Prelude.{◌≡◌, map, IfOk};
ghost use Rattle.bg_ast.specs.Views.{ex_of, link_view, bracket_view};
ghost use Rattle.bg_opened.specs.Changed.{copying};
ghost use Rattle.bg_opening.specs.Views.{changed_expr, changed_link, changed_bracket};

use crate::nodes::apply_node;
use bg_ast::resolved::{Bracket, Expr, Link};
use std::alloc::{AllocError, Global};

/// A copy, form by form.
#[tactic(auto, using(crate::proofs::Forms::forms))]
#[cycle(copy_expr)]
pub fn copy(alloc: Global, e: &Expr) -> Result<Expr, AllocError>
    ensures { IfOk result (λ x. ex_of x ≡ changed_expr copying e.now) }
{
    match e {
        Expr::Number(pos, n) => Ok(Expr::Number(*pos, *n)),
        Expr::Truth(pos, b) => Ok(Expr::Truth(*pos, *b)),
        Expr::Constant(pos, k) => Ok(Expr::Constant(*pos, *k)),
        Expr::Read(pos, x) => Ok(Expr::Read(*pos, *x)),
        Expr::Apply(pos, function, args) => {
            let made = copy_all(alloc, args)?;
            Ok(apply_node(*pos, *function, made))
        }
        Expr::Old(pos, e) => {
            let made = copy(alloc, e)?;
            Ok(Expr::Old(*pos, Box::new(alloc, made)?))
        }
        Expr::Parens(pos, e) => {
            let made = copy(alloc, e)?;
            Ok(Expr::Parens(*pos, Box::new(alloc, made)?))
        }
        Expr::Prefix(signs, e) => {
            let signs = signs.to_vec(alloc)?;
            let made = copy(alloc, e)?;
            Ok(Expr::Prefix(signs, Box::new(alloc, made)?))
        }
        Expr::Postfix(e, brackets) => {
            let made = copy(alloc, e)?;
            let behind = copy_brackets(alloc, brackets)?;
            Ok(Expr::Postfix(Box::new(alloc, made)?, behind))
        }
        Expr::Chain(e, links) => {
            let made = copy(alloc, e)?;
            let behind = copy_links(alloc, links)?;
            Ok(Expr::Chain(Box::new(alloc, made)?, behind))
        }
    }
}

/// The same of the expressions of a list.
#[tactic(auto, using(crate::proofs::Forms::forms))]
#[cycle(copy_expr)]
pub fn copy_all(alloc: Global, es: &[Expr]) -> Result<Vec<Expr>, AllocError>
    ensures { IfOk result (λ made. map ex_of made.items ≡ map (changed_expr copying) es.now) }
{
    let mut made = Vec::new(alloc);
    for e in es {
        let e = copy(alloc, e)?;
        made.push(e)?;
    }
    Ok(made)
}

#[tactic(auto, using(crate::proofs::Forms::forms))]
#[cycle(copy_expr)]
fn copy_bracket(alloc: Global, bracket: &Bracket) -> Result<Bracket, AllocError>
    ensures { IfOk result (λ b. bracket_view b ≡ changed_bracket copying bracket.now) }
{
    match bracket {
        Bracket::Select(pos, indices) => {
            let indices = copy_all(alloc, indices)?;
            Ok(Bracket::Select(*pos, indices))
        }
        Bracket::Update(pos, indices, value) => {
            let indices = copy_all(alloc, indices)?;
            let value = copy(alloc, value)?;
            Ok(Bracket::Update(*pos, indices, value))
        }
    }
}

#[tactic(auto, using(crate::proofs::Forms::forms))]
#[cycle(copy_expr)]
fn copy_brackets(alloc: Global, brackets: &[Bracket]) -> Result<Vec<Bracket>, AllocError>
    ensures { IfOk result (λ made. map bracket_view made.items ≡ map (changed_bracket copying) brackets.now) }
{
    let mut made = Vec::new(alloc);
    for b in brackets {
        let b = copy_bracket(alloc, b)?;
        made.push(b)?;
    }
    Ok(made)
}

#[tactic(auto, using(crate::proofs::Forms::forms))]
#[cycle(copy_expr)]
fn copy_link(alloc: Global, link: &Link) -> Result<Link, AllocError>
    ensures { IfOk result (λ l. link_view l ≡ changed_link copying link.now) }
{
    let operand = copy(alloc, &link.operand)?;
    Ok(Link {
        pos: link.pos,
        sign: link.sign,
        operand,
    })
}

#[tactic(auto, using(crate::proofs::Forms::forms))]
#[cycle(copy_expr)]
fn copy_links(alloc: Global, links: &[Link]) -> Result<Vec<Link>, AllocError>
    ensures { IfOk result (λ made. map link_view made.items ≡ map (changed_link copying) links.now) }
{
    let mut made = Vec::new(alloc);
    for l in links {
        let l = copy_link(alloc, l)?;
        made.push(l)?;
    }
    Ok(made)
}
