//! The rows of a graph.
ghost use Rattle.std.specs.Prelude.{◌≡◌, ◌<◌, ◌^◌, ◌↔◌, IsTrue, length, EachIndex, slice_index, ◌≤◌, MatchOption};
ghost use Rattle.bg_graph.specs.Graphs.{graph_of, targets, IsGraph};

/// The nodes that this node names; none where there is no such node.
pub fn targets(edges: &[Vec<u32>], node: u32) -> &[u32]
    ensures { result.now ≡ targets (graph_of edges.now) node }
{
    match edges.get(node as usize) {
        Some(row) => row.as_slice(),
        None => &[],
    }
}

/// The node at a place of a row.
pub fn item_of(row: &[u32], place: usize) -> Option<u32>
    ensures { MatchOption result (length row.now ≤ place) (λ t. (place < length row.now) × (t ≡ slice_index row.now place)) }
{
    if place < row.len() {
        Some(row[place])
    } else {
        None
    }
}

/// Whether all nodes of a row are below `nodes`.
fn is_row(row: &[u32], nodes: usize) -> bool
    ensures { IsTrue result ↔ EachIndex row.now (λ k. slice_index row.now k < nodes) }
{
    row.iter().all(|t| (*t as usize) < nodes)
}

/// Whether these lists are a graph: there are less than 2^32, and each names only numbers of lists, counted from 0.
pub fn is_graph(edges: &[Vec<u32>]) -> bool
    ensures few { IsTrue result → length edges.now < 2 ^ 32 }
    ensures graph { IsTrue result → IsGraph (graph_of edges.now) }
    ensures only { length edges.now < 2 ^ 32 → IsGraph (graph_of edges.now) → IsTrue result }
{
    if edges.len() > u32::MAX as usize {
        return false;
    }
    for row in edges {
        if !is_row(row, edges.len()) {
            return false;
        }
    }
    true
}
