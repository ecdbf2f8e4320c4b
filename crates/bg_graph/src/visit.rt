//! A walk along all edges from a root.
ghost use Rattle.std.specs.Prelude.{◌≡◌, ◌<◌, ◌^◌, length, IfOk};
ghost use Rattle.bg_graph.specs.Graphs.{graph_of, IsGraph};
ghost use Rattle.bg_graph.specs.Marks.{Settled, NoneOpen, Visited};

use crate::graph::{item_of, targets};
use crate::marks::{Frame, Mark, enter, mark_of, next_undone, set_mark};
use std::alloc::{AllocError, Global};

/// How a visit ends: with the next rank to give, or at a node that reaches itself.
pub enum Visit {
    Ended(u32),
    Cycle(u32),
}

/// Walks along all edges from a root, unless it is done, and gives ranks from `next` on to the nodes that it leaves.
pub fn visit_root(
    alloc: Global,
    edges: &[Vec<u32>],
    marks: &mut [Mark],
    mut next: u32,
    root: u32,
) -> Result<Visit, AllocError>
    requires few { length edges.now < 2 ^ 32 }
    requires graph { IsGraph (graph_of edges.now) }
    requires settled { Settled (graph_of edges.now) marks.old next }
    requires none { NoneOpen marks.old }
    requires node { root < length edges.now }
    ensures { IfOk result (λ v. Visited (graph_of edges.now) marks.old marks.new root v) }
{
    let Mark::Fresh = mark_of(marks, root) else {
        return Ok(Visit::Ended(next));
    };
    let mut stack: Vec<Frame> = Vec::new(alloc);
    enter(marks, &mut stack, root)?;
    while let Some(top) = stack.pop() {
        let row = targets(edges, top.node);
        let from = next_undone(marks, row, top.from);
        match item_of(row, from) {
            None => {
                set_mark(marks, top.node, Mark::Done(next));
                next += 1;
            }
            Some(target) => match mark_of(marks, target) {
                Mark::Open => return Ok(Visit::Cycle(target)),
                Mark::Done(_) => unreachable!(),
                Mark::Fresh => {
                    stack.push(Frame {
                        node: top.node,
                        from,
                    })?;
                    enter(marks, &mut stack, target)?;
                }
            },
        }
    }
    Ok(Visit::Ended(next))
}
