//! The longest chain of functions with a body, each used in the body of the next.
ghost use Rattle.std.specs.Prelude.{◌≡◌, ◌<◌, ◌^◌, ℕ, length, map, get_or, slice_set, IfOk};
ghost use Rattle.bg_graph.specs.Graphs.{graph_of, targets, IsRanking};
ghost use Rattle.bg_ast.specs.Views.{fun_of, program_of};
ghost use Rattle.bg_expanded.specs.Chains.{chain_to, longest_chain};
ghost use Rattle.bg_expanded.specs.Applied.{applied_graph};
ghost use Rattle.bg_expanded.specs.Ranked.{greatest_of, greatest_at, chain_at};

use crate::applied::rows;
use crate::ranked::by_rank;
use bg_ast::resolved::{Function, Resolved};
use bg_graph::{Order, order_of};
use std::alloc::{AllocError, Global};

/// What a table has for a function, or 0.
fn deep_at(deep: &[usize], f: u32) -> usize
    ensures { result ≡ get_or deep.now f 0 }
{
    match deep.get(f as usize) {
        None => 0,
        Some(n) => *n,
    }
}

/// The greatest that a table has for these functions.
fn greatest_at(deep: &[usize], row: &[u32]) -> usize
    ensures { result ≡ greatest_at deep.now row.now }
{
    let mut found = 0;
    for f in row {
        found = deep_at(deep, *f).max(found);
    }
    found
}

/// The greatest of these numbers.
fn greatest(numbers: &[usize]) -> usize
    ensures { result ≡ greatest_of numbers.now }
{
    let mut found = 0;
    for n in numbers {
        found = found.max(*n);
    }
    found
}

/// The functions that a function's body applies; none where there is no such function.
fn row_at(edges: &[Vec<u32>], f: u32) -> &[u32]
    ensures { result.now ≡ targets (graph_of edges.now) f }
{
    match edges.get(f as usize) {
        Some(row) => row.as_slice(),
        None => &[],
    }
}

/// The longest chain that ends with a function, where a table has those of the functions that its body applies.
fn chain_at(functions: &[Function], edges: &[Vec<u32>], deep: &[usize], f: u32) -> usize
    ensures { result ≡ chain_at (map fun_of functions.now) (graph_of edges.now) deep.now f }
{
    match functions.get(f as usize) {
        None => 0,
        Some(function) => match &function.body {
            None => 0,
            Some(_) => greatest_at(deep, row_at(edges, f)).saturating_add(1),
        },
    }
}

/// Puts a number down for a function.
fn set_deep(deep: &mut Vec<usize>, f: u32, n: usize)
    ensures { deep.new.items ≡ slice_set deep.old.items f n }
{
    if (f as usize) < deep.len() {
        deep[f as usize] = n;
    }
}

/// The longest chain that ends with each function, where each edge goes to a function of smaller rank.
fn chains(
    alloc: Global,
    functions: &[Function],
    edges: &[Vec<u32>],
    ranks: &[u32],
) -> Result<Vec<usize>, AllocError>
    requires few { length functions.now < 2 ^ 32 }
    requires edges { graph_of edges.now ≡ applied_graph (map fun_of functions.now) }
    requires falls { IsRanking (graph_of edges.now) ranks.now }
    ensures long { IfOk result (λ deep. length deep.items ≡ length functions.now) }
    ensures is { IfOk result (λ deep. (f : ℕ) → f < length functions.now → get_or deep.items f 0 ≡ chain_to (map fun_of functions.now) (length functions.now) f) }
{
    let order = by_rank(alloc, ranks)?;
    let mut deep = vec![in alloc; 0; functions.len()]?;
    for ranked in &order {
        let n = chain_at(functions, edges, &deep, ranked.function);
        set_deep(&mut deep, ranked.function, n);
    }
    Ok(deep)
}

/// The longest chain of functions with a body, each used in the body of the next: as many as there are functions, if one is used in its
/// own. Time and memory are about linear in the text of the functions.
///
/// Only want of memory is an error, also where there are no more numbers of 32 bits.
pub fn longest_chain(alloc: Global, program: &Resolved) -> Result<usize, AllocError>
    ensures { IfOk result (λ n. n ≡ longest_chain (program_of program.now)) }
{
    let functions = program.functions.as_slice();
    let edges = rows(alloc, functions)?;
    if edges.len() > u32::MAX as usize {
        return Err(AllocError);
    }
    match order_of(alloc, &edges)? {
        Order::Cyclic(_) => Ok(edges.len()),
        Order::Acyclic(ranks) => {
            let deep = chains(alloc, functions, &edges, &ranks)?;
            Ok(greatest(&deep))
        }
    }
}
