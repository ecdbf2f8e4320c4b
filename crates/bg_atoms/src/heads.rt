//! The relation of numbers with which a chain begins.
ghost use Rattle.std.specs.Prelude.{◌≡◌, ◌≤◌, ◌&&◌, length};
ghost use Rattle.bg_ast.specs.Meaning as m;
ghost use Rattle.bg_ast.specs.Views.{ex_of};
ghost use Rattle.bg_linear.specs.Relations.{relates, op_of};
ghost use Rattle.bg_linear.specs.Sorts.{kind_ex, is_number};
ghost use Rattle.bg_atoms.specs.Made.{behind};
ghost use Rattle.bg_atoms.specs.Turned.{until_implies};
ghost use Rattle.bg_atoms.specs.Heads.{IsSums, IsHead, IsNext};

use crate::named::Names;
use crate::signs::{is_arithmetic, is_implies, relates};
use crate::sorted::{is_chain_number, is_number};
use bg_ast::resolved::{Expr, Link};

/// How many signs in front stand between numbers.
fn sums(links: &[Link]) -> usize
    ensures { IsSums links.now result }
{
    let mut n = 0;
    for l in links {
        if !is_arithmetic(l.sign) {
            return n;
        }
        n += 1;
    }
    n
}

/// How many links stand before the next `==>`.
pub fn until_implies(links: &[Link]) -> usize
    ensures until { result ≡ until_implies links.now }
    ensures within { result ≤ length links.now }
{
    let mut n = 0;
    for l in links {
        if is_implies(l.sign) {
            return n;
        }
        n += 1;
    }
    n
}

/// Whether a sign relates numbers, of which the left one is a chain.
fn is_relation(names: &Names, first: &Expr, front: &[Link], l: &Link) -> bool
    ensures { result ≡ (relates (op_of l.now.sign) && (is_number (kind_ex names.now.sorts.items (behind (m.ex_of (ex_of first.now)) front.now)) && is_number (kind_ex names.now.sorts.items (m.ex_of (ex_of l.now.operand))))) }
{
    relates(l.sign)
        && is_chain_number(&names.sorts, first, front)
        && is_number(&names.sorts, &l.operand)
}

/// How many links belong to the relation of numbers with which a chain begins: those of its left side, and its own.
pub fn head(names: &Names, first: &Expr, links: &[Link]) -> usize
    ensures { IsHead names.now.sorts.items (m.ex_of (ex_of first.now)) links.now result }
{
    let n = sums(links);
    match links.get(n) {
        None => 0,
        Some(l) => {
            if is_relation(names, first, &links[..n], l) {
                n + 1
            } else {
                0
            }
        }
    }
}

/// How many links belong to the relation with which the chain behind a sign begins.
pub fn next(names: &Names, l: &Link, links: &[Link]) -> usize
    ensures { IsNext names.now.sorts.items l.now links.now result }
{
    if is_implies(l.sign) {
        head(names, &l.operand, links)
    } else {
        0
    }
}
