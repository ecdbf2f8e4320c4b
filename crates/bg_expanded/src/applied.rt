//! The functions that expressions apply.
ghost use Rattle.std.specs.Prelude.{◌≡◌, ◌++◌, map, IfOk, OnOk};
ghost use Rattle.bg_graph.specs.Graphs.{graph_of};
ghost use Rattle.bg_ast.specs.Views.{ex_of, exs_in, link_view, links_of, bracket_view, brackets_of, fun_of};
ghost use Rattle.bg_expanded.specs.Applied.{if_below, applied_in, applied_in_all, applied_behind, applied_linked, applied_in_bracket, applied_by, applied_graph};

use bg_ast::resolved::{Bracket, Expr, Function, Link};
use std::alloc::{AllocError, Global};

/// Adds a function, if it is one of so many.
fn push_function(out: &mut Vec<u32>, functions: usize, f: u32) -> Result<(), AllocError>
    ensures { OnOk result (out.new.items ≡ out.old.items ++ if_below functions f) }
{
    if (f as usize) < functions {
        out.push(f)?;
    }
    Ok(())
}

/// Adds the functions, of so many, that an expression applies.
#[cycle(push_applied)]
#[tactic(auto, using(crate::proofs::AppliedForms::applied_forms))]
fn push_applied(out: &mut Vec<u32>, functions: usize, e: &Expr) -> Result<(), AllocError>
    ensures { OnOk result (out.new.items ≡ out.old.items ++ applied_in functions (ex_of e.now)) }
{
    match e {
        Expr::Apply(_, f, es) => {
            push_function(out, functions, *f)?;
            push_all(out, functions, es)
        }
        Expr::Old(_, e) => push_applied(out, functions, e),
        Expr::Parens(_, e) => push_applied(out, functions, e),
        Expr::Prefix(_, e) => push_applied(out, functions, e),
        Expr::Postfix(e, brackets) => {
            push_applied(out, functions, e)?;
            push_behind(out, functions, brackets)
        }
        Expr::Chain(e, links) => {
            push_applied(out, functions, e)?;
            push_linked(out, functions, links)
        }
        _ => Ok(()),
    }
}

/// Adds those of each of a list.
#[cycle(push_applied)]
fn push_all(out: &mut Vec<u32>, functions: usize, es: &[Expr]) -> Result<(), AllocError>
    ensures { OnOk result (out.new.items ≡ out.old.items ++ applied_in_all functions (exs_in es.now)) }
{
    for e in es {
        push_applied(out, functions, e)?;
    }
    Ok(())
}

/// Adds those of one bracket.
#[cycle(push_applied)]
#[tactic(auto, using(crate::proofs::AppliedForms::applied_forms))]
fn push_bracket(out: &mut Vec<u32>, functions: usize, bracket: &Bracket) -> Result<(), AllocError>
    ensures { OnOk result (out.new.items ≡ out.old.items ++ applied_in_bracket functions (bracket_view bracket.now)) }
{
    match bracket {
        Bracket::Select(_, es) => push_all(out, functions, es),
        Bracket::Update(_, es, e) => {
            push_all(out, functions, es)?;
            push_applied(out, functions, e)
        }
    }
}

/// Adds those of a row of brackets.
#[cycle(push_applied)]
fn push_behind(out: &mut Vec<u32>, functions: usize, brackets: &[Bracket]) -> Result<(), AllocError>
    ensures { OnOk result (out.new.items ≡ out.old.items ++ applied_behind functions (brackets_of (map bracket_view brackets.now))) }
{
    for bracket in brackets {
        push_bracket(out, functions, bracket)?;
    }
    Ok(())
}

/// Adds those of the links of a chain.
#[cycle(push_applied)]
fn push_linked(out: &mut Vec<u32>, functions: usize, links: &[Link]) -> Result<(), AllocError>
    ensures { OnOk result (out.new.items ≡ out.old.items ++ applied_linked functions (links_of (map link_view links.now))) }
{
    for link in links {
        push_applied(out, functions, &link.operand)?;
    }
    Ok(())
}

/// The functions, of so many, that the body of a function applies.
fn row_of(alloc: Global, functions: usize, f: &Function) -> Result<Vec<u32>, AllocError>
    ensures { IfOk result (λ row. row.items ≡ applied_by functions (fun_of f.now).body) }
{
    let mut row = Vec::new(alloc);
    if let Some(e) = &f.body {
        push_applied(&mut row, functions, e)?;
    }
    Ok(row)
}

/// For each of these functions those of them that its body applies.
pub fn rows(alloc: Global, functions: &[Function]) -> Result<Vec<Vec<u32>>, AllocError>
    ensures { IfOk result (λ rows. graph_of rows.items ≡ applied_graph (map fun_of functions.now)) }
{
    let mut made = Vec::new(alloc);
    for f in functions {
        let row = row_of(alloc, functions.len(), f)?;
        made.push(row)?;
    }
    Ok(made)
}
