//! Expressions.
ghost use Rattle.std.specs.Prelude.{◌≡◌, ◌++◌, OnOk};
ghost use Rattle.bg_text.specs.declared.token.Kind.TheVariants as kinds;
ghost use Rattle.bg_text.specs.Views.{exs_in};
ghost use Rattle.bg_print.specs.Docs.{text, each, gap, commas, in_parens, in_brackets, spaced, Called, ◌⨾◌};
ghost use Rattle.bg_print.specs.Exprs.{prefix_doc, list_doc};
ghost use Rattle.bg_print.specs.Rows.{expr_doc, tree_bracket_doc, link_doc};

use crate::put::{put_gap, put_infix, put_number, put_prefix, put_truth};
use bg_text::{Name, TreeBracket, TreeExpr, TreeLink, TreePrefix};
use std::alloc::AllocError;

fn put_prefixes(out: &mut Vec<u8>, signs: &[TreePrefix]) -> Result<(), AllocError>
    ensures { OnOk result (out.new.items ≡ out.old.items ++ text (each prefix_doc signs.now)) }
{
    for sign in signs {
        put_prefix(out, sign.sign)?;
    }
    Ok(())
}

#[cycle(print_expr)]
pub fn put_expr(out: &mut Vec<u8>, e: &TreeExpr) -> Result<(), AllocError>
    ensures { OnOk result (out.new.items ≡ out.old.items ++ text (expr_doc e.now)) }
{
    match e {
        TreeExpr::Number(_, n) => put_number(out, *n),
        TreeExpr::Truth(_, b) => put_truth(out, *b),
        TreeExpr::Named(name) => out.extend_from_slice(&name.text),
        TreeExpr::Apply(name, args) => {
            put_apply(out, name, args)?;
            Ok(())
        }
        TreeExpr::Old(_, e) => {
            out.extend_from_slice(b"old(")?;
            put_expr(out, e)?;
            out.extend_from_slice(b")")
        }
        TreeExpr::Parens(_, e) => {
            out.extend_from_slice(b"(")?;
            put_expr(out, e)?;
            out.extend_from_slice(b")")
        }
        TreeExpr::Prefix(signs, e) => {
            put_prefixes(out, signs)?;
            put_expr(out, e)
        }
        TreeExpr::Postfix(e, brackets) => {
            put_expr(out, e)?;
            put_brackets(out, brackets)?;
            Ok(())
        }
        TreeExpr::Chain(e, links) => {
            put_expr(out, e)?;
            put_links(out, links)?;
            Ok(())
        }
    }
}

#[cycle(print_expr)]
fn put_apply(out: &mut Vec<u8>, name: &Name, args: &[TreeExpr]) -> Result<(), AllocError>
    ensures { OnOk result (out.new.items ≡ out.old.items ++ text (Called name.now.text.items ⨾ in_parens (commas expr_doc args.now))) }
{
    out.extend_from_slice(&name.text)?;
    out.extend_from_slice(b"(")?;
    put_list(out, args)?;
    out.extend_from_slice(b")")
}

/// An expression of a list, behind a comma and a space where another stands before it.
#[cycle(print_expr)]
fn put_next(out: &mut Vec<u8>, behind: bool, e: &TreeExpr) -> Result<(), AllocError>
    ensures { OnOk result (out.new.items ≡ out.old.items ++ text (gap behind ⨾ expr_doc e.now)) }
{
    put_gap(out, behind)?;
    put_expr(out, e)
}

/// Expressions with commas between them.
#[cycle(print_expr)]
fn put_list(out: &mut Vec<u8>, es: &[TreeExpr]) -> Result<(), AllocError>
    ensures { OnOk result (out.new.items ≡ out.old.items ++ text (commas expr_doc es.now)) }
{
    let mut behind = false;
    for e in es {
        put_next(out, behind, e)?;
        behind = true;
    }
    Ok(())
}

#[cycle(print_expr)]
fn put_select(out: &mut Vec<u8>, indices: &[TreeExpr]) -> Result<(), AllocError>
    ensures { OnOk result (out.new.items ≡ out.old.items ++ text (in_brackets (commas expr_doc indices.now))) }
{
    out.extend_from_slice(b"[")?;
    put_list(out, indices)?;
    out.extend_from_slice(b"]")
}

#[cycle(print_expr)]
fn put_bracket(out: &mut Vec<u8>, bracket: &TreeBracket) -> Result<(), AllocError>
    ensures { OnOk result (out.new.items ≡ out.old.items ++ text (tree_bracket_doc bracket.now)) }
{
    match bracket {
        TreeBracket::Select(_, indices) => {
            put_select(out, indices)?;
            Ok(())
        }
        TreeBracket::Update(_, indices, value) => {
            out.extend_from_slice(b"[")?;
            put_list(out, indices)?;
            out.extend_from_slice(b" := ")?;
            put_expr(out, value)?;
            out.extend_from_slice(b"]")?;
            Ok(())
        }
    }
}

#[cycle(print_expr)]
fn put_brackets(out: &mut Vec<u8>, brackets: &[TreeBracket]) -> Result<(), AllocError>
    ensures { OnOk result (out.new.items ≡ out.old.items ++ text (each tree_bracket_doc brackets.now)) }
{
    for bracket in brackets {
        put_bracket(out, bracket)?;
    }
    Ok(())
}

#[cycle(print_expr)]
fn put_link(out: &mut Vec<u8>, link: &TreeLink) -> Result<(), AllocError>
    ensures { OnOk result (out.new.items ≡ out.old.items ++ text (link_doc link.now)) }
{
    out.extend_from_slice(b" ")?;
    put_infix(out, link.sign)?;
    out.extend_from_slice(b" ")?;
    put_expr(out, &link.operand)
}

#[cycle(print_expr)]
fn put_links(out: &mut Vec<u8>, links: &[TreeLink]) -> Result<(), AllocError>
    ensures { OnOk result (out.new.items ≡ out.old.items ++ text (each link_doc links.now)) }
{
    for link in links {
        put_link(out, link)?;
    }
    Ok(())
}

/// Expressions with commas between them, as data.
pub fn put_exprs(out: &mut Vec<u8>, es: &[TreeExpr]) -> Result<(), AllocError>
    ensures { OnOk result (out.new.items ≡ out.old.items ++ text (list_doc (exs_in es.now))) }
{
    put_list(out, es)?;
    Ok(())
}
