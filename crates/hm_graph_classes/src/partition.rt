//! The classes of alike vertices.
ghost use Rattle.std.specs.Prelude.{◌≡◌, ◌↔◌, ◌<◌, ◌++◌, ℕ, IsTrue, IfOk, OnOk, All, Some, length, map, cond};
ghost use Rattle.std.specs.Option.{unwrap_or};
ghost use Rattle.std.specs.Ordering.{is_eq};
ghost use Rattle.std.specs.BTreeMap.{get};
ghost use Rattle.hm_graph.specs.Same.{IsClosed};
ghost use Rattle.hm_graph_classes.specs.Reduced.{class_at};
ghost use Rattle.hm_graph_classes.specs.Indexed.{Key, key_cmp};
ghost use Rattle.hm_graph_classes.specs.Partitions.{IsKey, IsRefined, IsStable};

use crate::apart::apart;
use hm_graph::Vertex;
use hm_tree::Memory;
use std::alloc::Global;
use std::collections::BTreeMap;

/// For each vertex the first one that is alike.
//
// A round takes the vertices of a class apart whose labels differ, or whose edges lead to different classes, and costs as much
// as a sorting of all edges. Numbers that come cheaper have taken them apart before, so there are few rounds.
pub fn classes(alloc: Global, graph: &[Vertex]) -> Result<Vec<usize>, Memory>
    requires { IsClosed graph.now }
    ensures { IfOk result (λ cs. IsStable graph.now cs.items) }
{
    let begin = apart(alloc, graph)?;
    let mut now = refined(alloc, graph, &begin)?;
    loop {
        let next = refined(alloc, graph, &now)?;
        if equal(&next, &now) {
            return Ok(now);
        }
        now = next;
    }
}

pub fn zeros(alloc: Global, count: usize) -> Result<Vec<usize>, Memory>
    ensures { IfOk result (λ cs. (length cs.items ≡ count) × ((i : ℕ) → class_at cs.items i ≡ 0)) }
{
    let mut all = Vec::with_capacity(alloc, count)?;
    for _ in 0..count {
        all.push(0)?;
    }
    Ok(all)
}

pub fn equal(one: &[usize], two: &[usize]) -> bool
    ensures { IsTrue result ↔ (one.now ≡ two.now) }
{
    one == two
}

// For each vertex the first one with its key.
pub fn refined(alloc: Global, graph: &[Vertex], now: &[usize]) -> Result<Vec<usize>, Memory>
    requires closed { IsClosed graph.now }
    requires size { length now.now ≡ length graph.now }
    ensures { IfOk result (λ cs. IsRefined graph.now now.now cs.items) }
{
    let mut known = BTreeMap::new(alloc);
    let mut next = Vec::with_capacity(alloc, graph.len())?;
    for i in 0..graph.len() {
        let key = key_of(alloc, graph, now, i)?;
        next.push(first(&mut known, key, i)?)?;
    }
    Ok(next)
}

// The key of a vertex.
pub fn key_of(
    alloc: Global,
    graph: &[Vertex],
    now: &[usize],
    i: usize,
) -> Result<(u64, Vec<usize>), Memory>
    requires closed { IsClosed graph.now }
    requires size { length now.now ≡ length graph.now }
    requires in_range { i < length graph.now }
    ensures { IfOk result (IsKey graph.now now.now i) }
{
    let vertex = &graph[i];
    let mut numbers = Vec::with_capacity(alloc, 1 + vertex.next.len())?;
    numbers.push(now[i])?;
    push_classes(&mut numbers, now, &vertex.next)?;
    Ok((vertex.label, numbers))
}

// Puts the classes of vertices behind other numbers.
pub fn push_classes(
    numbers: &mut Vec<usize>,
    classes: &[usize],
    vertices: &[usize],
) -> Result<(), Memory>
    requires { All (λ k. k < length classes.now) vertices.now }
    ensures { OnOk result (numbers.new.items ≡ numbers.old.items ++ map (class_at classes.now) vertices.now) }
{
    for vertex in vertices {
        numbers.push(classes[*vertex])?;
    }
    Ok(())
}

// What a map has at a key, where it then has a value, if it had none.
pub fn first(
    known: &mut BTreeMap<(u64, Vec<usize>), usize>,
    key: (u64, Vec<usize>),
    value: usize,
) -> Result<usize, Memory>
    ensures first { IfOk result (λ r. r ≡ unwrap_or (get key_cmp known.old key) value) }
    ensures known { IfOk result (λ r. (q : Key) → get key_cmp known.new q ≡ cond (is_eq (key_cmp key q)) (Some r) (get key_cmp known.old q)) }
{
    if let Some(first) = known.get(&key) {
        return Ok(*first);
    }
    known.insert(key, value)?;
    Ok(value)
}
