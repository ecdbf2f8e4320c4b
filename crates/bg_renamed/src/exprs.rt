//! Expressions over incarnations.
ghost use Rattle.std.specs.Prelude.{◌≡◌, map, IfOk};
ghost use Rattle.bg_ast.specs.Meaning as m;
ghost use Rattle.bg_ast.specs.Resolved as r;
ghost use Rattle.bg_ast.specs.Views.{ex_of, exs_of, link_view, bracket_view};
ghost use Rattle.bg_passive.specs.Incarnations.{rename};
ghost use Rattle.bg_renamed.specs.Views.{env_of, renamed_expr, renamed_link, renamed_bracket};

use crate::env::{Env, before, read};
use bg_ast::resolved::{Bracket, Expr, Link};
use bg_base::Pos;
use std::alloc::{AllocError, Global};

#[tactic(auto, using(crate::proofs::Forms::forms))]
fn apply_node(pos: Pos, function: u32, args: Vec<Expr>) -> Expr
    ensures { ex_of result ≡ r.Apply pos function (exs_of (map ex_of args.items)) }
{
    Expr::Apply(pos, function, args)
}

/// A copy over incarnations, form by form.
#[tactic(auto, using(crate::proofs::Forms::forms))]
#[cycle(rename_expr)]
fn expr(alloc: Global, e: &Expr, env: &Env<'_>) -> Result<Expr, AllocError>
    ensures { IfOk result (λ x. ex_of x ≡ renamed_expr (env_of env.now) e.now) }
{
    match e {
        Expr::Number(pos, n) => Ok(Expr::Number(*pos, *n)),
        Expr::Truth(pos, b) => Ok(Expr::Truth(*pos, *b)),
        Expr::Constant(pos, k) => Ok(Expr::Constant(*pos, *k)),
        Expr::Read(pos, x) => Ok(read(*pos, env, *x)),
        Expr::Apply(pos, function, args) => {
            let args = exprs(alloc, args, env)?;
            Ok(apply_node(*pos, *function, args))
        }
        Expr::Old(_, e) => {
            let seen = before(env);
            expr(alloc, e, &seen)
        }
        Expr::Parens(pos, e) => {
            let made = expr(alloc, e, env)?;
            Ok(Expr::Parens(*pos, Box::new(alloc, made)?))
        }
        Expr::Prefix(signs, e) => {
            let signs = signs.to_vec(alloc)?;
            let made = expr(alloc, e, env)?;
            Ok(Expr::Prefix(signs, Box::new(alloc, made)?))
        }
        Expr::Postfix(e, brackets) => {
            let made = expr(alloc, e, env)?;
            let behind = brackets_behind(alloc, brackets, env)?;
            Ok(Expr::Postfix(Box::new(alloc, made)?, behind))
        }
        Expr::Chain(e, links) => {
            let made = expr(alloc, e, env)?;
            let behind = links_behind(alloc, links, env)?;
            Ok(Expr::Chain(Box::new(alloc, made)?, behind))
        }
    }
}

/// Copies of a list over incarnations.
#[tactic(auto, using(crate::proofs::Forms::forms))]
#[cycle(rename_expr)]
pub fn exprs(alloc: Global, es: &[Expr], env: &Env<'_>) -> Result<Vec<Expr>, AllocError>
    ensures { IfOk result (λ made. map ex_of made.items ≡ map (renamed_expr (env_of env.now)) es.now) }
{
    let mut made = Vec::new(alloc);
    for e in es {
        let e = expr(alloc, e, env)?;
        made.push(e)?;
    }
    Ok(made)
}

#[tactic(auto, using(crate::proofs::Forms::forms))]
#[cycle(rename_expr)]
fn bracket(alloc: Global, bracket: &Bracket, env: &Env<'_>) -> Result<Bracket, AllocError>
    ensures { IfOk result (λ b. bracket_view b ≡ renamed_bracket (env_of env.now) bracket.now) }
{
    match bracket {
        Bracket::Select(pos, indices) => {
            let indices = exprs(alloc, indices, env)?;
            Ok(Bracket::Select(*pos, indices))
        }
        Bracket::Update(pos, indices, value) => {
            let indices = exprs(alloc, indices, env)?;
            let value = expr(alloc, value, env)?;
            Ok(Bracket::Update(*pos, indices, value))
        }
    }
}

#[tactic(auto, using(crate::proofs::Forms::forms))]
#[cycle(rename_expr)]
fn brackets_behind(
    alloc: Global,
    brackets: &[Bracket],
    env: &Env<'_>,
) -> Result<Vec<Bracket>, AllocError>
    ensures { IfOk result (λ made. map bracket_view made.items ≡ map (renamed_bracket (env_of env.now)) brackets.now) }
{
    let mut made = Vec::new(alloc);
    for b in brackets {
        let b = bracket(alloc, b, env)?;
        made.push(b)?;
    }
    Ok(made)
}

#[tactic(auto, using(crate::proofs::Forms::forms))]
#[cycle(rename_expr)]
fn link(alloc: Global, link: &Link, env: &Env<'_>) -> Result<Link, AllocError>
    ensures { IfOk result (λ l. link_view l ≡ renamed_link (env_of env.now) link.now) }
{
    let operand = expr(alloc, &link.operand, env)?;
    Ok(Link {
        pos: link.pos,
        sign: link.sign,
        operand,
    })
}

#[tactic(auto, using(crate::proofs::Forms::forms))]
#[cycle(rename_expr)]
fn links_behind(alloc: Global, links: &[Link], env: &Env<'_>) -> Result<Vec<Link>, AllocError>
    ensures { IfOk result (λ made. map link_view made.items ≡ map (renamed_link (env_of env.now)) links.now) }
{
    let mut made = Vec::new(alloc);
    for l in links {
        let l = link(alloc, l, env)?;
        made.push(l)?;
    }
    Ok(made)
}

/// The expression over incarnations: each variable is its incarnation, and what stands in `old` reads those of the globals before.
///
/// Only want of memory is an error.
pub fn renamed(alloc: Global, e: &Expr, env: &Env<'_>) -> Result<Expr, AllocError>
    ensures { IfOk result (λ x. m.ex_of (ex_of x) ≡ rename (m.ex_of (ex_of e.now)) (env_of env.now)) }
{
    expr(alloc, e, env)
}
