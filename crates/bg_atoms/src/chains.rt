//! Chains and rows of signs over atoms.
ghost use Rattle.std.specs.Prelude.{IfOk};
ghost use Rattle.bg_ast.specs.Meaning as m;
ghost use Rattle.bg_ast.specs.Views.{ex_of};
ghost use Rattle.bg_atoms.specs.Made.{Shows, behind};

use crate::made::{Linked, Made};
use crate::signs::copied;
use bg_ast::resolved::Expr;
use bg_text::TreePrefix;
use std::alloc::{AllocError, Global};

/// A chain of truths.
pub fn joined(alloc: Global, first: Expr, rest: Linked) -> Result<Made, AllocError>
    ensures { IfOk result (Shows (behind (m.ex_of (ex_of first)) rest.links.items) rest.refused) }
{
    let refused = rest.refused;
    Ok(Made {
        says: Expr::Chain(Box::new(alloc, first)?, rest.links),
        refused,
    })
}

/// What stands behind prefix signs.
pub fn prefixed(alloc: Global, signs: &[TreePrefix], x: Made) -> Result<Made, AllocError>
    ensures { IfOk result (Shows (m.signed signs.now (m.ex_of (ex_of x.says))) x.refused) }
{
    let refused = x.refused;
    let signs = copied(alloc, signs)?;
    Ok(Made {
        says: Expr::Prefix(signs, Box::new(alloc, x.says)?),
        refused,
    })
}
