//! Opened expressions.
ghost use Rattle.std.specs.Prelude.{◌≡◌, map, IfOk};
ghost use Rattle.bg_ast.specs.Views.{ex_of};
ghost use Rattle.bg_opening.specs.Desks.{opened_at};

use crate::applies::applies;
use crate::passes::{Known, pass};
use bg_ast::resolved::{Expr, Function};
use std::alloc::{AllocError, Global};

/// With what programs are opened: memory, how many globals stand before the constants, the functions, and how often their bodies are put
/// in.
#[derive(Clone, Copy)]
pub struct Desk<'d> {
    pub alloc: Global,
    pub globals: u32,
    pub functions: &'d [Function],
    pub depth: usize,
}

/// The expression with bodies put in as often as it says, or until no function with a body is applied; then its constants are globals.
///
/// Only want of memory is an error; 2^32 globals and constants count as such.
#[tactic(auto, using(crate::proofs::There::there_forms))]
pub fn opened(desk: Desk<'_>, e: &Expr) -> Result<Expr, AllocError>
    ensures { IfOk result (λ x. ex_of x ≡ opened_at desk.entry (ex_of e.now)) }
{
    let last = Known {
        globals: desk.globals,
        functions: &[],
    };
    if desk.depth == 0 || !applies(desk.functions, e) {
        return pass(desk.alloc, last, e);
    }
    let known = Known {
        globals: desk.globals,
        functions: desk.functions,
    };
    let mut left = pass(desk.alloc, known, e)?;
    for _ in 1..desk.depth {
        if !applies(desk.functions, &left) {
            return pass(desk.alloc, last, &left);
        }
        left = pass(desk.alloc, known, &left)?;
    }
    pass(desk.alloc, last, &left)
}

/// The same of the expressions of a list.
pub fn all_opened(desk: Desk<'_>, es: &[Expr]) -> Result<Vec<Expr>, AllocError>
    ensures { IfOk result (λ made. map ex_of made.items ≡ map (opened_at desk.entry) (map ex_of es.now)) }
{
    let mut made = Vec::new(desk.alloc);
    for e in es {
        let e = opened(desk, e)?;
        made.push(e)?;
    }
    Ok(made)
}
