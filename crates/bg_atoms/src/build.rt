//! Small expressions over atoms.
ghost use Rattle.std.specs.Prelude.{◌≡◌, IfOk};
ghost use Rattle.bg_ast.specs.Meaning as m;
ghost use Rattle.bg_ast.specs.Syntax.{Binary, And, Fact};
ghost use Rattle.bg_ast.specs.Views.{ex_of};
ghost use Rattle.bg_atoms.specs.Built.{literal_ex};

use bg_ast::resolved::{Expr, Link, Variable};
use bg_base::Pos;
use bg_formula::Literal;
use bg_renamed::negated;
use bg_text::InfixSign;
use std::alloc::{AllocError, Global};

/// Where what no text says stands.
const NOWHERE: Pos = Pos { line: 0, column: 0 };

/// A truth value.
pub fn plain(b: bool) -> Expr
    ensures { m.ex_of (ex_of result) ≡ Fact b }
{
    Expr::Truth(NOWHERE, b)
}

/// What says that the literal is true.
pub fn literal(alloc: Global, l: Literal) -> Result<Expr, AllocError>
    ensures { IfOk result (λ x. m.ex_of (ex_of x) ≡ literal_ex l.sign l.atom) }
{
    let read = Expr::Read(NOWHERE, Variable::Local(l.atom));
    if l.sign {
        Ok(read)
    } else {
        negated(alloc, read)
    }
}

/// The conjunction.
pub fn both(alloc: Global, a: Expr, b: Expr) -> Result<Expr, AllocError>
    ensures { IfOk result (λ x. m.ex_of (ex_of x) ≡ Binary And (m.ex_of (ex_of a)) (m.ex_of (ex_of b))) }
{
    let first = Box::new(alloc, a)?;
    let mut links = Vec::new(alloc);
    links.push(Link {
        pos: NOWHERE,
        sign: InfixSign::And,
        operand: b,
    })?;
    Ok(Expr::Chain(first, links))
}
