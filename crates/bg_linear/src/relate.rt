//! Rows of relations.
ghost use Rattle.std.specs.Prelude.{◌≡◌, [], map};
ghost use Rattle.bg_ast.specs.Meaning as m;
ghost use Rattle.bg_ast.specs.Views.{ex_of, links_of, link_view};
ghost use Rattle.bg_rows.specs.Rows.{row_of, Told};
ghost use Rattle.bg_formula.specs.Atoms.{view_linear};
ghost use Rattle.bg_linear.specs.Lins.{together};
ghost use Rattle.bg_linear.specs.Views.{lin_of, sum_in};
ghost use Rattle.bg_linear.specs.Relations.{bounded, compared, alone, both_ways, related, relation, op_of};
ghost use Rattle.bg_base.specs.declared.exact.Op.TheVariants as arith;

use crate::formed::{linear, linear_of_chain};
use crate::lin::Lin;
use crate::sum::Sum;
use bg_ast::resolved::{Expr, Link};
use bg_base::{Op, sub};
use bg_formula::{Linear, deny_row};
use bg_rows::{Refused, Row};
use bg_text::InfixSign;
use std::alloc::Global;

/// The row that says that a form is at most 0, or that it is below 0.
fn bounded(strict: bool, f: Lin) -> Result<Row, Refused>
    ensures { Told row_of result (bounded strict (lin_of f)) }
{
    let least = if strict { -1 } else { 0 };
    let bound = sub(least, f.constant)?;
    Ok(Row {
        entries: f.entries,
        bound,
    })
}

/// One form minus another.
fn difference(alloc: Global, f: &Lin, g: &Lin) -> Result<Lin, Refused>
    ensures { Told lin_of result (together arith.Minus (lin_of f.now) (lin_of g.now)) }
{
    let sum = Sum::of(alloc, f)?;
    let made = sum.join(Op::Minus, g)?;
    let f = made.list(alloc)?;
    Ok(f)
}

/// The row that says that a form is at most another one, or that it is below it, with its denial.
fn compared(alloc: Global, strict: bool, f: &Lin, g: &Lin) -> Result<Linear, Refused>
    ensures { Told view_linear result (compared strict (lin_of f.now) (lin_of g.now)) }
{
    let h = difference(alloc, f, g)?;
    let row = bounded(strict, h)?;
    deny_row(alloc, row)
}

fn alone(alloc: Global, strict: bool, f: &Lin, g: &Lin) -> Result<Vec<Linear>, Refused>
    ensures { Told (λ v. map view_linear v.items) result (alone (compared strict (lin_of f.now) (lin_of g.now))) }
{
    let a = compared(alloc, strict, f, g)?;
    let mut rows = Vec::new(alloc);
    rows.push(a)?;
    Ok(rows)
}

fn both_ways(alloc: Global, f: &Lin, g: &Lin) -> Result<Vec<Linear>, Refused>
    ensures { Told (λ v. map view_linear v.items) result (both_ways (lin_of f.now) (lin_of g.now)) }
{
    let a = compared(alloc, false, f, g)?;
    let b = compared(alloc, false, g, f)?;
    let mut rows = Vec::new(alloc);
    rows.push(a)?;
    rows.push(b)?;
    Ok(rows)
}

/// The rows of a relation between two forms, each with its denial: one for an order, two for `==`, and the same two for `!=`,
/// which denies them. What is no relation of numbers has none.
///
/// For `<=` and `<` it is the row of left minus right, for `>=` and `>` that of right minus left, for the others both in this
/// order. Where the difference has the constant k, the row's bound is 0 - k, or -1 - k where the relation is strict. Refused at
/// the first operation that leaves the range, a denial's among them.
fn related(alloc: Global, sign: InfixSign, f: &Lin, g: &Lin) -> Result<Vec<Linear>, Refused>
    ensures { Told (λ v. map view_linear v.items) result (related (op_of sign) (lin_of f.now) (lin_of g.now)) }
{
    match sign {
        InfixSign::AtMost => alone(alloc, false, f, g),
        InfixSign::Less => alone(alloc, true, f, g),
        InfixSign::AtLeast => alone(alloc, false, g, f),
        InfixSign::Greater => alone(alloc, true, g, f),
        InfixSign::Equal => both_ways(alloc, f, g),
        InfixSign::Unequal => both_ways(alloc, f, g),
        InfixSign::Iff => Ok(Vec::new(alloc)),
        InfixSign::Implies => Ok(Vec::new(alloc)),
        InfixSign::Explies => Ok(Vec::new(alloc)),
        InfixSign::And => Ok(Vec::new(alloc)),
        InfixSign::Or => Ok(Vec::new(alloc)),
        InfixSign::Plus => Ok(Vec::new(alloc)),
        InfixSign::Minus => Ok(Vec::new(alloc)),
        InfixSign::Times => Ok(Vec::new(alloc)),
    }
}

/// The rows of a relation between two expressions over incarnations, of which the left one is a chain of these links behind an
/// expression: the left form is made, then the right one, then their rows: one for an order, two for `==`, and the same two for
/// `!=`, which denies them. Refused at the first operation that leaves the range.
pub fn relation_of_chain(
    alloc: Global,
    sign: InfixSign,
    first: &Expr,
    links: &[Link],
    right: &Expr,
) -> Result<Vec<Linear>, Refused>
    ensures { Told (λ v. map view_linear v.items) result (relation (op_of sign) (m.chained (m.ex_of (ex_of first.now)) (links_of (map link_view links.now))) (m.ex_of (ex_of right.now))) }
{
    let f = linear_of_chain(alloc, first, links)?;
    let g = linear(alloc, right)?;
    related(alloc, sign, &f, &g)
}
