//! What is known of functions' bodies, opened deeper and deeper.
ghost use Rattle.std.specs.Prelude.{ℕ, List, map, IfOk};
ghost use Rattle.bg_ast.specs.Views.{fun_of};
ghost use Rattle.bg_opened.specs.Changed.{bodies_in};
ghost use Rattle.bg_expanded.specs.Chains.{most_bodies};
ghost use Rattle.bg_expanded.specs.Weights.{weigh_body};
ghost use Rattle.bg_expanded.specs.Bodies.{IsAlike, worth_of, weigher, IsTable};

use crate::count::{Count, nothing};
use crate::nodes::add;
use bg_ast::resolved::Function;
use std::alloc::{AllocError, Global};

/// The most bodies that may stand in one chain.
pub const MOST_BODIES: usize = 16;

/// What is known of a function's body, if it has one, where a table knows the bodies in it.
fn body_of(
    alloc: Global,
    table: &[Option<Count>],
    f: &Function,
) -> Result<Option<Count>, AllocError>
    ensures { IfOk result (λ c. (ws : List ℕ) → IsAlike (worth_of c ws) (weigh_body (weigher table.now) (fun_of f.now).body ws)) }
{
    match &f.body {
        None => Ok(None),
        Some(e) => {
            let mut count = nothing(alloc);
            add(&mut count, table, 1, e)?;
            Ok(Some(count))
        }
    }
}

/// What is known of bodies that are opened one deeper.
fn deeper(
    alloc: Global,
    table: &[Option<Count>],
    functions: &[Function],
) -> Result<Vec<Option<Count>>, AllocError>
    ensures { IfOk result (λ made. (f : ℕ) (ws : List ℕ) → IsAlike (weigher made.items f ws) (weigh_body (weigher table.now) (bodies_in (map fun_of functions.now) f) ws)) }
{
    let mut made = Vec::new(alloc);
    for f in functions {
        let body = body_of(alloc, table, f)?;
        made.push(body)?;
    }
    Ok(made)
}

/// What is known of the bodies of functions, opened as deep as they may be.
pub fn bodies(alloc: Global, functions: &[Function]) -> Result<Vec<Option<Count>>, AllocError>
    ensures { IfOk result (λ made. IsTable (map fun_of functions.now) most_bodies made.items) }
{
    let mut table = Vec::new(alloc);
    for _depth in 0..MOST_BODIES {
        table = deeper(alloc, &table, functions)?;
    }
    Ok(table)
}
