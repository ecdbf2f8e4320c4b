//! Orders and cycles of small graphs, and long chains.
use bg_graph::{Order, is_graph, order_of};
use std::alloc::{AllocError, Global};
use std::test::Fail;

type Lists = &'static [&'static [u32]];

/// Graphs, with the first node that reaches itself.
const CYCLIC: [(Lists, u32); 10] = [
    (&[&[3], &[4], &[], &[1], &[3, 2]], 1),
    (&[&[2], &[4], &[3], &[4], &[5], &[1, 2]], 1),
    (&[&[0]], 0),
    (&[&[], &[1]], 1),
    (&[&[1], &[0]], 0),
    (&[&[1], &[2], &[1]], 1),
    (&[&[3], &[2], &[1], &[4], &[3]], 1),
    (&[&[1], &[], &[3, 1], &[4], &[2], &[5]], 2),
    (&[&[4], &[4], &[2], &[], &[3]], 2),
    (&[&[4], &[3], &[0], &[1, 1], &[3, 2]], 0),
];

/// Graphs, with the ranks of their nodes.
const ACYCLIC: [(Lists, &[u32]); 4] = [
    (&[], &[]),
    (&[&[]], &[0]),
    (&[&[1, 1, 2], &[2], &[]], &[2, 1, 0]),
    (&[&[], &[0], &[0, 1, 0]], &[0, 1, 2]),
];

/// The answer about these lists; none where they are no graph.
fn answer(alloc: Global, edges: &[Vec<u32>]) -> Result<Option<Order>, AllocError> {
    if !is_graph(edges) {
        return Ok(None);
    }
    Ok(Some(order_of(alloc, edges)?))
}

/// Whether the answer about these lists is the wanted one.
fn tells(alloc: Global, lists: &[&[u32]], wanted: Option<Order>) -> Result<bool, AllocError> {
    let mut edges = Vec::new(alloc);
    for list in lists {
        edges.push(Vec::from_slice(alloc, list)?)?;
    }
    Ok(answer(alloc, &edges)? == wanted)
}

#[test]
fn answers_are_those_of_the_tables(rt: HostRuntime) -> Result<(), Fail> {
    let alloc = rt.alloc();
    for (lists, first) in &CYCLIC {
        assert!(rt; tells(alloc, lists, Some(Order::Cyclic(*first)))?);
    }
    for (lists, ranks) in &ACYCLIC {
        assert!(rt;
            tells(
                alloc,
                lists,
                Some(Order::Acyclic(Vec::from_slice(alloc, ranks)?))
            )?
        );
    }
    assert!(rt; tells(alloc, &[&[1], &[2]], None)?);
    Ok(())
}

/// The answer about a chain of 10,000 nodes from 0 on, whose last node names this one.
fn chained(alloc: Global, last: u32) -> Result<Option<Order>, AllocError> {
    let mut edges = Vec::new(alloc);
    for node in 1..10_000 {
        edges.push(vec![in alloc; node]?)?;
    }
    edges.push(vec![in alloc; last]?)?;
    answer(alloc, &edges)
}

#[test]
fn long_chains_are_walked(rt: HostRuntime) -> Result<(), Fail> {
    for last in [9_999, 5_000, 0] {
        assert!(rt; chained(rt.alloc(), last)? == Some(Order::Cyclic(last)));
    }
    Ok(())
}
