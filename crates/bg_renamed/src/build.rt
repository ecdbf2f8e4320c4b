//! Small expressions over incarnations.
ghost use Rattle.std.specs.Prelude.{◌≡◌, IfOk};
ghost use Rattle.bg_ast.specs.Meaning as m;
ghost use Rattle.bg_ast.specs.Syntax.{Binary, Equal, Read, Local, Not};
ghost use Rattle.bg_ast.specs.Views.{ex_of};

use bg_ast::resolved::{Expr, Link, Variable};
use bg_base::Pos;
use bg_text::{InfixSign, PrefixSign, TreePrefix};
use std::alloc::{AllocError, Global};

/// Where what no text says stands.
const NOWHERE: Pos = Pos { line: 0, column: 0 };

/// What says that the incarnation is worth this.
#[tactic(auto, using(crate::proofs::Forms::forms))]
pub fn equal(alloc: Global, incarnation: u32, e: Expr) -> Result<Expr, AllocError>
    ensures { IfOk result (λ x. m.ex_of (ex_of x) ≡ Binary Equal (Read (Local incarnation)) (m.ex_of (ex_of e))) }
{
    let first = Box::new(alloc, Expr::Read(NOWHERE, Variable::Local(incarnation)))?;
    let mut links = Vec::new(alloc);
    links.push(Link {
        pos: NOWHERE,
        sign: InfixSign::Equal,
        operand: e,
    })?;
    Ok(Expr::Chain(first, links))
}

/// The denial.
#[tactic(auto, using(crate::proofs::Forms::forms))]
pub fn negated(alloc: Global, e: Expr) -> Result<Expr, AllocError>
    ensures { IfOk result (λ x. m.ex_of (ex_of x) ≡ Not (m.ex_of (ex_of e))) }
{
    let mut signs = Vec::new(alloc);
    signs.push(TreePrefix {
        pos: NOWHERE,
        sign: PrefixSign::Not,
    })?;
    Ok(Expr::Prefix(signs, Box::new(alloc, e)?))
}
