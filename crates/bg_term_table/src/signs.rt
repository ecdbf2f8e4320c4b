//! Signs of chains.
ghost use Rattle.std.specs.Prelude.{◌≡◌, ◌≤◌, length, IfOk};
ghost use Rattle.bg_term_table.specs.Chains.{is_implies};
ghost use Rattle.bg_term_table.specs.Linked.{is_explies};
ghost use Rattle.bg_term_table.specs.Until.{until_implies};

use bg_ast::resolved::Link;
use bg_text::{InfixSign, TreePrefix};
use std::alloc::{AllocError, Global};

pub fn is_implies(sign: InfixSign) -> bool
    ensures { result ≡ is_implies sign }
{
    sign == InfixSign::Implies
}

pub fn is_explies(sign: InfixSign) -> bool
    ensures { result ≡ is_explies sign }
{
    sign == InfixSign::Explies
}

/// How many links stand before the next `==>`.
pub fn until_implies(links: &[Link]) -> usize
    ensures until { result ≡ until_implies links.now }
    ensures within { result ≤ length links.now }
{
    let mut n = 0;
    for l in links {
        if is_implies(l.sign) {
            return n;
        }
        n += 1;
    }
    n
}

/// The same signs.
pub fn copied(alloc: Global, signs: &[TreePrefix]) -> Result<Vec<TreePrefix>, AllocError>
    ensures { IfOk result (λ made. made.items ≡ signs.now) }
{
    Ok(signs.to_vec(alloc)?)
}
