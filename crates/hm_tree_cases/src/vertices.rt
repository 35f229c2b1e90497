//! Small graphs, made by hand.
ghost use Rattle.std.specs.Prelude.{IsTrue, All, ◌<◌, length};
ghost use Rattle.hm_graph.specs.Same.{IsClosed};

use hm_graph::Vertex;
use hm_tree::Memory;
use std::alloc::Global;

/// A vertex for each label and its edges.
pub fn graph(alloc: Global, vertices: &[(u64, &[usize])]) -> Result<Vec<Vertex>, Memory> {
    let mut graph = Vec::new(alloc);
    for (label, edges) in vertices {
        graph.push(vertex(alloc, *label, edges)?)?;
    }
    Ok(graph)
}

pub fn vertex(alloc: Global, label: u64, edges: &[usize]) -> Result<Vertex, Memory> {
    let mut next = Vec::new(alloc);
    next.extend_from_slice(edges)?;
    Ok(Vertex { label, next })
}

/// Whether all edges lead to vertices.
pub fn is_closed(graph: &[Vertex]) -> bool
    ensures { IsTrue result → IsClosed graph.now }
{
    graph.iter().all(|vertex| leads_inside(vertex, graph.len()))
}

pub fn leads_inside(vertex: &Vertex, count: usize) -> bool
    ensures { IsTrue result → All (λ k. k < count) vertex.now.next.items }
{
    vertex.next.iter().all(|k| *k < count)
}
