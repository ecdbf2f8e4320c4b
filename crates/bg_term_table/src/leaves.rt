//! Which leaf an expression is.
ghost use Rattle.std.specs.Prelude.{◌≡◌, IfOk};
ghost use Rattle.bg_term_table.specs.Views.{meaning, meanings};
ghost use Rattle.bg_term_table.specs.Keys.{leaf_in, leaves_in, leaves_of, bare};
ghost use Rattle.bg_term_table.specs.Locals.{local_in};

use crate::leaf::Leaf;
use bg_ast::resolved::{Expr, Variable};
use std::alloc::{AllocError, Global};

/// What stands beside a row: a leaf only where the row is empty.
fn bare<T>(row: &[T], l: Option<Leaf>) -> Option<Leaf>
    ensures { result ≡ bare row.now l }
{
    if row.is_empty() { l } else { None }
}

/// The leaf that an expression is, if it is one; parentheses, and rows without signs, brackets or links, are looked through.
pub fn leaf(e: &Expr) -> Option<Leaf>
    ensures { result ≡ leaf_in (meaning e.now) }
{
    match e {
        Expr::Number(_, n) => Some(Leaf::Number(*n)),
        Expr::Truth(_, b) => Some(Leaf::Truth(*b)),
        Expr::Read(_, Variable::Local(j)) => Some(Leaf::Read(*j)),
        Expr::Read(_, Variable::Global(_)) => None,
        Expr::Constant(_, _) => None,
        Expr::Apply(_, _, _) => None,
        Expr::Old(_, _) => None,
        Expr::Parens(_, e) => leaf(e),
        Expr::Prefix(signs, e) => bare(signs, leaf(e)),
        Expr::Postfix(e, brackets) => bare(brackets, leaf(e)),
        Expr::Chain(e, links) => bare(links, leaf(e)),
    }
}

/// The leaves that the expressions of a list are, if each of them is one.
pub fn leaves(alloc: Global, es: &[Expr]) -> Result<Option<Vec<Leaf>>, AllocError>
    ensures { IfOk result (λ made. leaves_of made ≡ leaves_in (meanings es.now)) }
{
    let mut made = Vec::new(alloc);
    for e in es {
        match leaf(e) {
            None => return Ok(None),
            Some(l) => made.push(l)?,
        }
    }
    Ok(Some(made))
}

/// The number of the incarnation or the term that an expression reads, if it reads one.
pub fn local(e: &Expr) -> Option<u32>
    ensures { result ≡ local_in (meaning e.now) }
{
    match leaf(e) {
        None => None,
        Some(Leaf::Number(_)) => None,
        Some(Leaf::Truth(_)) => None,
        Some(Leaf::Read(j)) => Some(j),
    }
}
