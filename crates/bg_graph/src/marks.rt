//! How far a walk along the edges has come with each node.
ghost use Rattle.std.specs.Prelude.{◌≡◌, ◌<◌, ◌≤◌, ◌++◌, ◌∷◌, [], ℕ, length, slice_index, slice_set, IfOk, OnOk, IsTrue, ◌↔◌, map};
ghost use Rattle.bg_graph.specs.Marks.{mark_of, rank_of, IsDone};
ghost use Rattle.bg_graph.specs.declared.marks.Frame.{Frame};
ghost use Rattle.bg_graph.specs.declared.marks.Mark.TheVariants.{Open};

use std::alloc::{AllocError, Global};

/// How far the walk has come with a node: not there yet, on the way from the root, or done, with its rank.
#[derive(Clone, Copy)]
pub enum Mark {
    Fresh,
    Open,
    Done(u32),
}

/// A node on the way from the root; the first `from` nodes that it names are done.
#[derive(Clone, Copy)]
pub struct Frame {
    pub node: u32,
    pub from: usize,
}

/// The mark of a node; fresh where there is no such node.
pub fn mark_of(marks: &[Mark], node: u32) -> Mark
    ensures { result ≡ mark_of marks.now node }
{
    match marks.get(node as usize) {
        Some(mark) => *mark,
        None => Mark::Fresh,
    }
}

/// Marks a node of the graph.
pub fn set_mark(marks: &mut [Mark], node: u32, mark: Mark)
    ensures { marks.new ≡ slice_set marks.old node mark }
{
    if (node as usize) < marks.len() {
        marks[node as usize] = mark;
    }
}

/// Whether the node is done.
pub fn is_done(marks: &[Mark], node: u32) -> bool
    ensures { IsTrue result ↔ IsDone marks.now node }
{
    match mark_of(marks, node) {
        Mark::Fresh => false,
        Mark::Open => false,
        Mark::Done(_) => true,
    }
}

/// The first place, from `from` on, of a node that isn't done; the row's length where there is none.
pub fn next_undone(marks: &[Mark], row: &[u32], from: usize) -> usize
    ensures passed { (k : ℕ) → from ≤ k → k < result → k < length row.now → IsDone marks.now (slice_index row.now k) }
    ensures stops { result < length row.now → IsDone marks.now (slice_index row.now result) → ⊥ }
{
    for k in from..row.len() {
        if !is_done(marks, row[k]) {
            return k;
        }
    }
    row.len()
}

/// The rank of a node that is done.
fn rank_of(mark: Mark) -> u32
    ensures { result ≡ rank_of mark }
{
    match mark {
        Mark::Fresh => 0,
        Mark::Open => 0,
        Mark::Done(rank) => rank,
    }
}

/// The ranks of nodes that are done.
pub fn ranks_of(alloc: Global, marks: &[Mark]) -> Result<Vec<u32>, AllocError>
    ensures { IfOk result (λ ranks. ranks.items ≡ map rank_of marks.now) }
{
    marks.iter().map(|mark| rank_of(*mark)).collect(alloc)
}

/// Puts a fresh node on the way.
pub fn enter(marks: &mut [Mark], stack: &mut Vec<Frame>, node: u32) -> Result<(), AllocError>
    ensures mark { OnOk result (marks.new ≡ slice_set marks.old node Open) }
    ensures frame { OnOk result (stack.new.items ≡ stack.old.items ++ record { node = node; from = 0 } ∷ []) }
{
    set_mark(marks, node, Mark::Open);
    stack.push(Frame { node, from: 0 })?;
    Ok(())
}
