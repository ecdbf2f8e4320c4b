//! Expressions in which constants are globals and bodies are put in.
ghost use Rattle.std.specs.Prelude.{◌≡◌, map, IfOk};
ghost use Rattle.bg_ast.specs.Views.{ex_of, exs_of, link_view, bracket_view, fun_of};
ghost use Rattle.bg_opened.specs.Changed.{applied, bodies_in, opening};
ghost use Rattle.bg_opening.specs.Views.{changed_expr, changed_link, changed_bracket};

use crate::nodes::apply_node;
use crate::puts::put;
use bg_ast::resolved::{Bracket, Expr, Function, Link, Variable};
use bg_base::Pos;
use std::alloc::{AllocError, Global};

/// How many globals stand before the constants, and the functions whose bodies are put in.
#[derive(Clone, Copy)]
pub struct Known<'k> {
    pub globals: u32,
    pub functions: &'k [Function],
}

/// The global that stands for a constant; 2^32 of them are more than memory holds.
fn global(known: Known<'_>, pos: Pos, k: u32) -> Result<Expr, AllocError>
    ensures { IfOk result (λ e. ex_of e ≡ (opening known.entry.globals (map fun_of known.entry.functions.now)).constant pos k) }
{
    match known.globals.checked_add(k) {
        Some(x) => Ok(Expr::Read(pos, Variable::Global(x))),
        None => Err(AllocError),
    }
}

/// An application to these arguments, or the body of the function with them in its place.
#[tactic(auto, using(crate::proofs::There::there_forms))]
fn apply(
    alloc: Global,
    known: Known<'_>,
    pos: Pos,
    function: u32,
    args: Vec<Expr>,
) -> Result<Expr, AllocError>
    ensures { IfOk result (λ e. ex_of e ≡ applied (bodies_in (map fun_of known.entry.functions.now) function) pos function (exs_of (map ex_of args.items))) }
{
    let Some(f) = known.functions.get(function as usize) else {
        return Ok(apply_node(pos, function, args));
    };
    match &f.body {
        None => Ok(apply_node(pos, function, args)),
        Some(body) => put(alloc, body, &args),
    }
}

/// The expression in which constants are globals and bodies are put in once, form by form.
#[tactic(auto, using(crate::proofs::Forms::forms))]
#[cycle(open_expr)]
pub fn pass(alloc: Global, known: Known<'_>, e: &Expr) -> Result<Expr, AllocError>
    ensures { IfOk result (λ x. ex_of x ≡ changed_expr (opening known.entry.globals (map fun_of known.entry.functions.now)) e.now) }
{
    match e {
        Expr::Number(pos, n) => Ok(Expr::Number(*pos, *n)),
        Expr::Truth(pos, b) => Ok(Expr::Truth(*pos, *b)),
        Expr::Constant(pos, k) => global(known, *pos, *k),
        Expr::Read(pos, x) => Ok(Expr::Read(*pos, *x)),
        Expr::Apply(pos, function, args) => {
            let made = pass_all(alloc, known, args)?;
            apply(alloc, known, *pos, *function, made)
        }
        Expr::Old(pos, e) => {
            let made = pass(alloc, known, e)?;
            Ok(Expr::Old(*pos, Box::new(alloc, made)?))
        }
        Expr::Parens(pos, e) => {
            let made = pass(alloc, known, e)?;
            Ok(Expr::Parens(*pos, Box::new(alloc, made)?))
        }
        Expr::Prefix(signs, e) => {
            let signs = signs.to_vec(alloc)?;
            let made = pass(alloc, known, e)?;
            Ok(Expr::Prefix(signs, Box::new(alloc, made)?))
        }
        Expr::Postfix(e, brackets) => {
            let made = pass(alloc, known, e)?;
            let behind = pass_brackets(alloc, known, brackets)?;
            Ok(Expr::Postfix(Box::new(alloc, made)?, behind))
        }
        Expr::Chain(e, links) => {
            let made = pass(alloc, known, e)?;
            let behind = pass_links(alloc, known, links)?;
            Ok(Expr::Chain(Box::new(alloc, made)?, behind))
        }
    }
}

/// The same of the expressions of a list.
#[tactic(auto, using(crate::proofs::Forms::forms))]
#[cycle(open_expr)]
pub fn pass_all(alloc: Global, known: Known<'_>, es: &[Expr]) -> Result<Vec<Expr>, AllocError>
    ensures { IfOk result (λ made. map ex_of made.items ≡ map (changed_expr (opening known.entry.globals (map fun_of known.entry.functions.now))) es.now) }
{
    let mut made = Vec::new(alloc);
    for e in es {
        let e = pass(alloc, known, e)?;
        made.push(e)?;
    }
    Ok(made)
}

#[tactic(auto, using(crate::proofs::Forms::forms))]
#[cycle(open_expr)]
fn pass_bracket(alloc: Global, known: Known<'_>, bracket: &Bracket) -> Result<Bracket, AllocError>
    ensures { IfOk result (λ b. bracket_view b ≡ changed_bracket (opening known.entry.globals (map fun_of known.entry.functions.now)) bracket.now) }
{
    match bracket {
        Bracket::Select(pos, indices) => {
            let indices = pass_all(alloc, known, indices)?;
            Ok(Bracket::Select(*pos, indices))
        }
        Bracket::Update(pos, indices, value) => {
            let indices = pass_all(alloc, known, indices)?;
            let value = pass(alloc, known, value)?;
            Ok(Bracket::Update(*pos, indices, value))
        }
    }
}

#[tactic(auto, using(crate::proofs::Forms::forms))]
#[cycle(open_expr)]
fn pass_brackets(
    alloc: Global,
    known: Known<'_>,
    brackets: &[Bracket],
) -> Result<Vec<Bracket>, AllocError>
    ensures { IfOk result (λ made. map bracket_view made.items ≡ map (changed_bracket (opening known.entry.globals (map fun_of known.entry.functions.now))) brackets.now) }
{
    let mut made = Vec::new(alloc);
    for b in brackets {
        let b = pass_bracket(alloc, known, b)?;
        made.push(b)?;
    }
    Ok(made)
}

#[tactic(auto, using(crate::proofs::Forms::forms))]
#[cycle(open_expr)]
fn pass_link(alloc: Global, known: Known<'_>, link: &Link) -> Result<Link, AllocError>
    ensures { IfOk result (λ l. link_view l ≡ changed_link (opening known.entry.globals (map fun_of known.entry.functions.now)) link.now) }
{
    let operand = pass(alloc, known, &link.operand)?;
    Ok(Link {
        pos: link.pos,
        sign: link.sign,
        operand,
    })
}

#[tactic(auto, using(crate::proofs::Forms::forms))]
#[cycle(open_expr)]
fn pass_links(alloc: Global, known: Known<'_>, links: &[Link]) -> Result<Vec<Link>, AllocError>
    ensures { IfOk result (λ made. map link_view made.items ≡ map (changed_link (opening known.entry.globals (map fun_of known.entry.functions.now))) links.now) }
{
    let mut made = Vec::new(alloc);
    for l in links {
        let l = pass_link(alloc, known, l)?;
        made.push(l)?;
    }
    Ok(made)
}
