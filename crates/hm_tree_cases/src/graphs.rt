//! Which vertices of small graphs are the same.
use crate::vertices::{graph, is_closed};
use hm_graph::{Vertex, same};
use hm_tree::Memory;
use std::alloc::Global;
use std::test::Fail;

// Whether two vertices are the same, where all edges lead to vertices.
fn are_same(
    alloc: Global,
    graph: &[Vertex],
    one: usize,
    two: usize,
) -> Result<Option<bool>, Memory> {
    if one < graph.len() && two < graph.len() && is_closed(graph) {
        return Ok(Some(same(alloc, graph, one, two)?));
    }
    Ok(None)
}

// Each pair has two vertices, and whether they are the same.
fn expect_pairs(
    alloc: Global,
    vertices: &[(u64, &[usize])],
    pairs: &[(usize, usize, bool)],
) -> Result<(), Fail> {
    let graph = graph(alloc, vertices)?;
    for (one, two, are) in pairs {
        if are_same(alloc, &graph, *one, *two)? != Some(*are) {
            return Err(Fail::new(format_args!("{one} and {two}")));
        }
    }
    Ok(())
}

const CYCLES: &[(u64, &[usize])] = &[(7, &[1]), (7, &[0]), (7, &[3]), (7, &[4]), (7, &[2])];

#[test]
fn cycles_of_different_lengths_are_the_same(rt: HostRuntime) -> Result<(), Fail> {
    expect_pairs(
        rt.alloc(),
        CYCLES,
        &[(0, 2, true), (4, 1, true), (3, 3, true)],
    )
}

const CHAINS: &[(u64, &[usize])] = &[
    (1, &[1]),
    (1, &[2]),
    (2, &[]),
    (1, &[4]),
    (1, &[5]),
    (3, &[]),
];

#[test]
fn a_label_deep_down_differs(rt: HostRuntime) -> Result<(), Fail> {
    expect_pairs(
        rt.alloc(),
        CHAINS,
        &[(0, 3, false), (0, 1, false), (0, 0, true)],
    )
}

const LOOPS: &[(u64, &[usize])] = &[(1, &[0]), (1, &[1, 1]), (1, &[])];

#[test]
fn the_number_of_edges_differs(rt: HostRuntime) -> Result<(), Fail> {
    expect_pairs(rt.alloc(), LOOPS, &[(0, 1, false), (0, 2, false)])
}

const PAIRS: &[(u64, &[usize])] = &[(0, &[2, 3]), (0, &[3, 2]), (1, &[]), (2, &[]), (0, &[2, 3])];

#[test]
fn the_order_of_edges_counts(rt: HostRuntime) -> Result<(), Fail> {
    expect_pairs(rt.alloc(), PAIRS, &[(0, 1, false), (0, 4, true)])
}
