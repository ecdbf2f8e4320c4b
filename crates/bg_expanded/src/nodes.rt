//! Nodes of expressions, in which applications count what is known of the functions' bodies.
ghost use Rattle.std.specs.Prelude.{◌≡◌, ◌*◌, Option, map, option_map, slice_get, OnOk};
ghost use Rattle.bg_ast.specs.Views.{ex_of, exs_in, link_view, links_of, bracket_view, brackets_of};
ghost use Rattle.bg_expanded.specs.Weights.{total, weight, weights, weight_behind, weight_linked, weight_of_bracket};
ghost use Rattle.bg_expanded.specs.Bodies.{Adds, paired, worth, weigher, known_in};

use crate::count::{Count, add_own, add_read, read_at, rest_of};
use bg_ast::resolved::{Bracket, Expr, Link};
use std::alloc::AllocError;

/// What a table knows of a function's body.
fn known(table: &[Option<Count>], f: u32) -> Option<&Count>
    ensures { option_map (λ c. c.now) result ≡ known_in (slice_get table.now f) }
{
    match table.get(f as usize) {
        Some(Some(count)) => Some(count),
        _ => None,
    }
}

/// Adds the nodes of an expression, so many times.
#[cycle(add)]
pub fn add(
    count: &mut Count,
    table: &[Option<Count>],
    times: u64,
    e: &Expr,
) -> Result<(), AllocError>
    ensures { OnOk result (Adds count.old count.new (λ ws. times * weight (weigher table.now) ws (ex_of e.now))) }
{
    match e {
        Expr::Read(_, x) => add_read(count, times, *x),
        Expr::Apply(_, f, es) => add_apply(count, table, times, *f, es),
        Expr::Parens(_, e) => add(count, table, times, e),
        Expr::Old(_, e) => {
            add_own(count, times);
            add(count, table, times, e)
        }
        Expr::Prefix(_, e) => {
            add_own(count, times);
            add(count, table, times, e)
        }
        Expr::Postfix(e, brackets) => {
            add_own(count, times);
            add(count, table, times, e)?;
            add_behind(count, table, times, brackets)
        }
        Expr::Chain(e, links) => {
            add_own(count, times);
            add(count, table, times, e)?;
            add_linked(count, table, times, links)
        }
        _ => {
            add_own(count, times);
            Ok(())
        }
    }
}

/// Adds those of an application.
#[cycle(add)]
fn add_apply(
    count: &mut Count,
    table: &[Option<Count>],
    times: u64,
    f: u32,
    es: &[Expr],
) -> Result<(), AllocError>
    ensures { OnOk result (Adds count.old count.new (λ ws. times * weigher table.now f (weights (weigher table.now) ws (exs_in es.now)))) }
{
    match known(table, f) {
        None => {
            add_own(count, times);
            add_all(count, table, times, es)
        }
        Some(body) => add_body(count, table, times, body, es),
    }
}

/// Adds those of a body with these arguments.
#[cycle(add)]
fn add_body(
    count: &mut Count,
    table: &[Option<Count>],
    times: u64,
    body: &Count,
    es: &[Expr],
) -> Result<(), AllocError>
    ensures { OnOk result (Adds count.old count.new (λ ws. times * worth body.now (weights (weigher table.now) ws (exs_in es.now)))) }
{
    add_own(count, times.saturating_mul(body.own));
    add_own(count, times.saturating_mul(rest_of(&body.reads, es.len())));
    add_args(count, table, times, &body.reads, es)
}

/// Adds those of arguments, each of which is read so often.
#[cycle(add)]
fn add_args(
    count: &mut Count,
    table: &[Option<Count>],
    times: u64,
    reads: &[u64],
    es: &[Expr],
) -> Result<(), AllocError>
    ensures { OnOk result (Adds count.old count.new (λ ws. times * paired reads.now (weights (weigher table.now) ws (exs_in es.now)))) }
{
    for place in 0..es.len() {
        let often = times.saturating_mul(read_at(reads, place));
        add(count, table, often, &es[place])?;
    }
    Ok(())
}

/// Adds those of each of a list.
#[cycle(add)]
pub fn add_all(
    count: &mut Count,
    table: &[Option<Count>],
    times: u64,
    es: &[Expr],
) -> Result<(), AllocError>
    ensures { OnOk result (Adds count.old count.new (λ ws. times * total (weights (weigher table.now) ws (exs_in es.now)))) }
{
    for e in es {
        add(count, table, times, e)?;
    }
    Ok(())
}

/// Adds those of one bracket.
#[cycle(add)]
fn add_bracket(
    count: &mut Count,
    table: &[Option<Count>],
    times: u64,
    bracket: &Bracket,
) -> Result<(), AllocError>
    ensures { OnOk result (Adds count.old count.new (λ ws. times * weight_of_bracket (weigher table.now) ws (bracket_view bracket.now))) }
{
    match bracket {
        Bracket::Select(_, es) => add_all(count, table, times, es),
        Bracket::Update(_, es, e) => {
            add_all(count, table, times, es)?;
            add(count, table, times, e)
        }
    }
}

/// Adds those of a row of brackets.
#[cycle(add)]
fn add_behind(
    count: &mut Count,
    table: &[Option<Count>],
    times: u64,
    brackets: &[Bracket],
) -> Result<(), AllocError>
    ensures { OnOk result (Adds count.old count.new (λ ws. times * weight_behind (weigher table.now) ws (brackets_of (map bracket_view brackets.now)))) }
{
    for bracket in brackets {
        add_bracket(count, table, times, bracket)?;
    }
    Ok(())
}

/// Adds those of the links of a chain.
#[cycle(add)]
fn add_linked(
    count: &mut Count,
    table: &[Option<Count>],
    times: u64,
    links: &[Link],
) -> Result<(), AllocError>
    ensures { OnOk result (Adds count.old count.new (λ ws. times * weight_linked (weigher table.now) ws (links_of (map link_view links.now)))) }
{
    for link in links {
        add(count, table, times, &link.operand)?;
    }
    Ok(())
}
