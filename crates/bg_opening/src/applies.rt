//! Whether functions with a body are applied.
ghost use Rattle.std.specs.Prelude.{◌≡◌, is_some, map};
ghost use Rattle.std.specs.List.{list_any};
ghost use Rattle.bg_ast.specs.Views.{ex_of, link_view, bracket_view, fun_of};
ghost use Rattle.bg_opened.specs.Changed.{bodies_in};
ghost use Rattle.bg_opening.specs.Applied.{applies_some, applies_within, applies_at};

use bg_ast::resolved::{Bracket, Expr, Function, Link};

/// Whether this one of the functions has a body.
#[tactic(auto, using(crate::proofs::There::there_forms))]
fn has_body(functions: &[Function], f: u32) -> bool
    ensures { result ≡ is_some (bodies_in (map fun_of functions.now) f) }
{
    let Some(d) = functions.get(f as usize) else {
        return false;
    };
    match &d.body {
        None => false,
        Some(_) => true,
    }
}

/// Whether one of the functions that has a body is applied in the expression.
#[tactic(auto, using(crate::proofs::Applied::applied_forms))]
#[cycle(applies_expr)]
pub fn applies(functions: &[Function], e: &Expr) -> bool
    ensures { result ≡ applies_some (map fun_of functions.now) (ex_of e.now) }
{
    match e {
        Expr::Number(_, _) => false,
        Expr::Truth(_, _) => false,
        Expr::Constant(_, _) => false,
        Expr::Read(_, _) => false,
        Expr::Apply(_, f, args) => has_body(functions, *f) || any_applies(functions, args),
        Expr::Old(_, e) => applies(functions, e),
        Expr::Parens(_, e) => applies(functions, e),
        Expr::Prefix(_, e) => applies(functions, e),
        Expr::Postfix(e, brackets) => applies(functions, e)
            || any_bracket_applies(functions, brackets),
        Expr::Chain(e, links) => applies(functions, e) || any_link_applies(functions, links),
    }
}

#[tactic(auto, using(crate::proofs::Applied::applied_forms))]
#[cycle(applies_expr)]
fn any_applies(functions: &[Function], es: &[Expr]) -> bool
    ensures { result ≡ list_any (applies_some (map fun_of functions.now)) (map ex_of es.now) }
{
    for e in es {
        if applies(functions, e) {
            return true;
        }
    }
    false
}

#[tactic(auto, using(crate::proofs::Applied::applied_forms))]
#[cycle(applies_expr)]
fn bracket_applies(functions: &[Function], bracket: &Bracket) -> bool
    ensures { result ≡ applies_within (map fun_of functions.now) (bracket_view bracket.now) }
{
    match bracket {
        Bracket::Select(_, indices) => any_applies(functions, indices),
        Bracket::Update(_, indices, value) => any_applies(functions, indices)
            || applies(functions, value),
    }
}

#[tactic(auto, using(crate::proofs::Applied::applied_forms))]
#[cycle(applies_expr)]
fn any_bracket_applies(functions: &[Function], brackets: &[Bracket]) -> bool
    ensures { result ≡ list_any (applies_within (map fun_of functions.now)) (map bracket_view brackets.now) }
{
    for b in brackets {
        if bracket_applies(functions, b) {
            return true;
        }
    }
    false
}

#[tactic(auto, using(crate::proofs::Applied::applied_forms))]
#[cycle(applies_expr)]
fn any_link_applies(functions: &[Function], links: &[Link]) -> bool
    ensures { result ≡ list_any (applies_at (map fun_of functions.now)) (map link_view links.now) }
{
    for l in links {
        if applies(functions, &l.operand) {
            return true;
        }
    }
    false
}
