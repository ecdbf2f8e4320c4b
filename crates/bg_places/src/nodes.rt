//! Nodes of expressions: what is left of a number behind them.
ghost use Rattle.std.specs.Prelude.{◌≡◌, ◌-◌, map};
ghost use Rattle.bg_ast.specs.Views.{ex_of, exs_in, link_view, links_of, bracket_view, brackets_of};
ghost use Rattle.bg_places.specs.Counts.{nodes, nodes_of, nodes_behind, nodes_linked, bracket_nodes};

use bg_ast::resolved::{Bracket, Expr, Link};

/// What is left behind an expression.
#[cycle(spend)]
#[tactic(auto, using(crate::proofs::SizedForms::node_forms))]
pub fn spend(left: u32, e: &Expr) -> u32
    ensures { result ≡ left - nodes (ex_of e.now) }
{
    match e {
        Expr::Number(_, _) => left.saturating_sub(1),
        Expr::Truth(_, _) => left.saturating_sub(1),
        Expr::Constant(_, _) => left.saturating_sub(1),
        Expr::Read(_, _) => left.saturating_sub(1),
        Expr::Apply(_, _, es) => spend_all(left.saturating_sub(1), es),
        Expr::Old(_, e) => spend(left.saturating_sub(1), e),
        Expr::Parens(_, e) => spend(left, e),
        Expr::Prefix(_, e) => spend(left.saturating_sub(1), e),
        Expr::Postfix(e, brackets) => spend_behind(spend(left.saturating_sub(1), e), brackets),
        Expr::Chain(e, links) => spend_linked(spend(left.saturating_sub(1), e), links),
    }
}

/// What is left behind each of a list.
#[cycle(spend)]
pub fn spend_all(left: u32, es: &[Expr]) -> u32
    ensures { result ≡ left - nodes_of (exs_in es.now) }
{
    let mut rest = left;
    for e in es {
        rest = spend(rest, e);
    }
    rest
}

/// What is left behind one bracket.
#[cycle(spend)]
#[tactic(auto, using(crate::proofs::SizedForms::node_forms))]
fn spend_bracket(left: u32, bracket: &Bracket) -> u32
    ensures { result ≡ left - bracket_nodes (bracket_view bracket.now) }
{
    match bracket {
        Bracket::Select(_, es) => spend_all(left, es),
        Bracket::Update(_, es, e) => spend(spend_all(left, es), e),
    }
}

/// What is left behind a row of brackets.
#[cycle(spend)]
fn spend_behind(left: u32, brackets: &[Bracket]) -> u32
    ensures { result ≡ left - nodes_behind (brackets_of (map bracket_view brackets.now)) }
{
    let mut rest = left;
    for bracket in brackets {
        rest = spend_bracket(rest, bracket);
    }
    rest
}

/// What is left behind the links of a chain.
#[cycle(spend)]
fn spend_linked(left: u32, links: &[Link]) -> u32
    ensures { result ≡ left - nodes_linked (links_of (map link_view links.now)) }
{
    let mut rest = left;
    for link in links {
        rest = spend(rest, &link.operand);
    }
    rest
}
