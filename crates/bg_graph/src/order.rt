//! An order of the nodes, or the first that reaches itself.
ghost use Rattle.std.specs.Prelude.{◌≡◌, ◌<◌, ◌^◌, ◌↔◌, length, IfOk, IsTrue};
ghost use Rattle.bg_graph.specs.Graphs.{graph_of, IsGraph, Reaches, IsFirstOnCycle};
ghost use Rattle.bg_graph.specs.Answers.{IsAnswer};

use crate::marks::{Mark, ranks_of};
use crate::rings::first_on_cycle;
use crate::visit::{Visit, visit_root};
use std::alloc::{AllocError, Global};

/// What is known of a graph: a rank for each node, below the number of nodes, so that each edge goes from a node to one of
/// smaller rank; or the first node that reaches itself.
#[derive(PartialEq, Eq, Drop)]
pub enum Order {
    Acyclic(Vec<u32>),
    Cyclic(u32),
}

/// The ranks of the nodes of a graph, or its first node that reaches itself. `edges` has for each node, counted from 0, the nodes
/// that it names, repeated or not; it may name itself. Time and memory are linear in the number of nodes and of edges.
///
/// Only want of memory is an error.
pub fn order_of(alloc: Global, edges: &[Vec<u32>]) -> Result<Order, AllocError>
    requires few { length edges.now < 2 ^ 32 }
    requires graph { IsGraph (graph_of edges.now) }
    ensures { IfOk result (λ o. IsAnswer (graph_of edges.now) o) }
{
    let mut marks = vec![in alloc; Mark::Fresh; edges.len()]?;
    let mut next = 0;
    for root in 0..edges.len() as u32 {
        match visit_root(alloc, edges, &mut marks, next, root)? {
            Visit::Ended(after) => next = after,
            Visit::Cycle(t) => return Ok(Order::Cyclic(first_on_cycle(alloc, edges, t)?)),
        }
    }
    Ok(Order::Acyclic(ranks_of(alloc, &marks)?))
}
