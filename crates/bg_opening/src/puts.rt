//! Bodies with arguments in the place of their variables.
ghost use Rattle.std.specs.Prelude.{◌≡◌, map, IfOk};
ghost use Rattle.bg_ast.specs.Views.{ex_of, exs_in, var_of, link_view, bracket_view};
ghost use Rattle.bg_opened.specs.Changed.{putting, put_read};
ghost use Rattle.bg_opening.specs.Views.{changed_expr, changed_link, changed_bracket};

use crate::copies::copy;
use crate::nodes::apply_node;
use bg_ast::resolved::{Bracket, Expr, Link, Variable};
use bg_base::Pos;
use std::alloc::{AllocError, Global};

/// What stands in the place of a variable: of the frame's the argument, or 0 where there is none.
#[tactic(auto, using(crate::proofs::There::there_forms))]
fn put_read(alloc: Global, xs: &[Expr], pos: Pos, x: Variable) -> Result<Expr, AllocError>
    ensures { IfOk result (λ e. ex_of e ≡ put_read (exs_in xs.now) pos (var_of x)) }
{
    let Variable::Local(j) = x else {
        return Ok(Expr::Read(pos, x));
    };
    match xs.get(j as usize) {
        None => Ok(Expr::Number(pos, 0)),
        Some(e) => copy(alloc, e),
    }
}

/// The expression with these in the place of the variables of the frame, form by form.
#[tactic(auto, using(crate::proofs::Forms::forms))]
#[cycle(put_expr)]
pub fn put(alloc: Global, e: &Expr, xs: &[Expr]) -> Result<Expr, AllocError>
    ensures { IfOk result (λ x. ex_of x ≡ changed_expr (putting (exs_in xs.now)) e.now) }
{
    match e {
        Expr::Number(pos, n) => Ok(Expr::Number(*pos, *n)),
        Expr::Truth(pos, b) => Ok(Expr::Truth(*pos, *b)),
        Expr::Constant(pos, k) => Ok(Expr::Constant(*pos, *k)),
        Expr::Read(pos, x) => put_read(alloc, xs, *pos, *x),
        Expr::Apply(pos, function, args) => {
            let made = put_all(alloc, args, xs)?;
            Ok(apply_node(*pos, *function, made))
        }
        Expr::Old(pos, e) => {
            let made = put(alloc, e, xs)?;
            Ok(Expr::Old(*pos, Box::new(alloc, made)?))
        }
        Expr::Parens(pos, e) => {
            let made = put(alloc, e, xs)?;
            Ok(Expr::Parens(*pos, Box::new(alloc, made)?))
        }
        Expr::Prefix(signs, e) => {
            let signs = signs.to_vec(alloc)?;
            let made = put(alloc, e, xs)?;
            Ok(Expr::Prefix(signs, Box::new(alloc, made)?))
        }
        Expr::Postfix(e, brackets) => {
            let made = put(alloc, e, xs)?;
            let behind = put_brackets(alloc, brackets, xs)?;
            Ok(Expr::Postfix(Box::new(alloc, made)?, behind))
        }
        Expr::Chain(e, links) => {
            let made = put(alloc, e, xs)?;
            let behind = put_links(alloc, links, xs)?;
            Ok(Expr::Chain(Box::new(alloc, made)?, behind))
        }
    }
}

/// The same of the expressions of a list.
#[tactic(auto, using(crate::proofs::Forms::forms))]
#[cycle(put_expr)]
pub fn put_all(alloc: Global, es: &[Expr], xs: &[Expr]) -> Result<Vec<Expr>, AllocError>
    ensures { IfOk result (λ made. map ex_of made.items ≡ map (changed_expr (putting (exs_in xs.now))) es.now) }
{
    let mut made = Vec::new(alloc);
    for e in es {
        let e = put(alloc, e, xs)?;
        made.push(e)?;
    }
    Ok(made)
}

#[tactic(auto, using(crate::proofs::Forms::forms))]
#[cycle(put_expr)]
fn put_bracket(alloc: Global, bracket: &Bracket, xs: &[Expr]) -> Result<Bracket, AllocError>
    ensures { IfOk result (λ b. bracket_view b ≡ changed_bracket (putting (exs_in xs.now)) bracket.now) }
{
    match bracket {
        Bracket::Select(pos, indices) => {
            let indices = put_all(alloc, indices, xs)?;
            Ok(Bracket::Select(*pos, indices))
        }
        Bracket::Update(pos, indices, value) => {
            let indices = put_all(alloc, indices, xs)?;
            let value = put(alloc, value, xs)?;
            Ok(Bracket::Update(*pos, indices, value))
        }
    }
}

#[tactic(auto, using(crate::proofs::Forms::forms))]
#[cycle(put_expr)]
fn put_brackets(
    alloc: Global,
    brackets: &[Bracket],
    xs: &[Expr],
) -> Result<Vec<Bracket>, AllocError>
    ensures { IfOk result (λ made. map bracket_view made.items ≡ map (changed_bracket (putting (exs_in xs.now))) brackets.now) }
{
    let mut made = Vec::new(alloc);
    for b in brackets {
        let b = put_bracket(alloc, b, xs)?;
        made.push(b)?;
    }
    Ok(made)
}

#[tactic(auto, using(crate::proofs::Forms::forms))]
#[cycle(put_expr)]
fn put_link(alloc: Global, link: &Link, xs: &[Expr]) -> Result<Link, AllocError>
    ensures { IfOk result (λ l. link_view l ≡ changed_link (putting (exs_in xs.now)) link.now) }
{
    let operand = put(alloc, &link.operand, xs)?;
    Ok(Link {
        pos: link.pos,
        sign: link.sign,
        operand,
    })
}

#[tactic(auto, using(crate::proofs::Forms::forms))]
#[cycle(put_expr)]
fn put_links(alloc: Global, links: &[Link], xs: &[Expr]) -> Result<Vec<Link>, AllocError>
    ensures { IfOk result (λ made. map link_view made.items ≡ map (changed_link (putting (exs_in xs.now))) links.now) }
{
    let mut made = Vec::new(alloc);
    for l in links {
        let l = put_link(alloc, l, xs)?;
        made.push(l)?;
    }
    Ok(made)
}
