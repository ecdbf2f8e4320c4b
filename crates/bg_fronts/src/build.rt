//! Small expressions.
ghost use Rattle.std.specs.Prelude.{◌≡◌, IfOk};
ghost use Rattle.bg_ast.specs.Syntax.{Binary, And, Fact, Implies, Equal, Not, Read, Local};
ghost use Rattle.bg_term_table.specs.Views.{meaning};
ghost use Rattle.bg_fronts.specs.Two.{two};

use bg_ast::resolved::{Expr, Link, Variable};
use bg_base::Pos;
use bg_text::{InfixSign, PrefixSign, TreePrefix};
use std::alloc::{AllocError, Global};

/// Where what no text says stands.
pub const NOWHERE: Pos = Pos { line: 0, column: 0 };

/// What reads the incarnation or the term with this number.
pub fn reads(number: u32) -> Expr
    ensures { meaning result ≡ Read (Local number) }
{
    Expr::Read(NOWHERE, Variable::Local(number))
}

/// A chain of two.
fn chain(alloc: Global, a: Expr, sign: InfixSign, b: Expr) -> Result<Expr, AllocError>
    ensures { IfOk result (λ x. meaning x ≡ two sign (meaning a) (meaning b)) }
{
    let first = Box::new(alloc, a)?;
    let mut links = Vec::new(alloc);
    links.push(Link {
        pos: NOWHERE,
        sign,
        operand: b,
    })?;
    Ok(Expr::Chain(first, links))
}

/// Both are equal.
pub fn equal(alloc: Global, a: Expr, b: Expr) -> Result<Expr, AllocError>
    ensures { IfOk result (λ x. meaning x ≡ Binary Equal (meaning a) (meaning b)) }
{
    chain(alloc, a, InfixSign::Equal, b)
}

/// Both are so.
pub fn both(alloc: Global, a: Expr, b: Expr) -> Result<Expr, AllocError>
    ensures { IfOk result (λ x. meaning x ≡ Binary And (meaning a) (meaning b)) }
{
    chain(alloc, a, InfixSign::And, b)
}

/// Where the first is so, the second is.
pub fn implied(alloc: Global, a: Expr, b: Expr) -> Result<Expr, AllocError>
    ensures { IfOk result (λ x. meaning x ≡ Binary Implies (meaning a) (meaning b)) }
{
    chain(alloc, a, InfixSign::Implies, b)
}

/// The denial.
pub fn negated(alloc: Global, a: Expr) -> Result<Expr, AllocError>
    ensures { IfOk result (λ x. meaning x ≡ Not (meaning a)) }
{
    let mut signs = Vec::new(alloc);
    signs.push(TreePrefix {
        pos: NOWHERE,
        sign: PrefixSign::Not,
    })?;
    Ok(Expr::Prefix(signs, Box::new(alloc, a)?))
}

/// What is so, or isn't.
pub fn fact(b: bool) -> Expr
    ensures { meaning result ≡ Fact b }
{
    Expr::Truth(NOWHERE, b)
}
