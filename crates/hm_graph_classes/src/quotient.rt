//! The graph of the classes of another one.
ghost use Rattle.std.specs.Prelude.{◌≡◌, ◌<◌, ◌≤◌, ℕ, IfOk, All, length, map};
ghost use Rattle.hm_graph.specs.Same.{IsClosed};
ghost use Rattle.hm_graph_classes.specs.Reduced.{IsReduced, AreClasses, class_at};
ghost use Rattle.hm_graph_classes.specs.Partitions.{IsStable, AreNumbers};

use crate::partition::{classes, push_classes};
use hm_graph::Vertex;
use hm_tree::Memory;
use std::alloc::Global;

// A vertex for each class of alike vertices, and the class of each vertex.
pub fn quotient(alloc: Global, graph: &[Vertex]) -> Result<(Vec<Vertex>, Vec<usize>), Memory>
    requires { IsClosed graph.now }
    ensures reduced { IfOk result (λ r. IsReduced r.0.items) }
    ensures classes { IfOk result (λ r. AreClasses graph.now r.0.items r.1.items) }
{
    let firsts = classes(alloc, graph)?;
    let (heads, numbers) = numbered(alloc, &firsts)?;
    let mut vertices = Vec::with_capacity(alloc, heads.len())?;
    for head in &heads {
        vertices.push(copied(alloc, &graph[*head], &numbers)?)?;
    }
    Ok((vertices, numbers))
}

// The first vertices of the classes in their order, and for each vertex the place of the first one of its class.
fn numbered(alloc: Global, firsts: &[usize]) -> Result<(Vec<usize>, Vec<usize>), Memory>
    requires low { (i : ℕ) → i < length firsts.now → class_at firsts.now i ≤ i }
    requires first { (i : ℕ) → i < length firsts.now → class_at firsts.now (class_at firsts.now i) ≡ class_at firsts.now i }
    ensures { IfOk result (λ r. AreNumbers firsts.now r.0.items r.1.items (length firsts.now)) }
{
    let mut heads = Vec::new(alloc);
    let mut numbers = Vec::with_capacity(alloc, firsts.len())?;
    for i in 0..firsts.len() {
        let first = firsts[i];
        if first < i {
            numbers.push(numbers[first])?;
        } else {
            numbers.push(heads.len())?;
            heads.push(i)?;
        }
    }
    Ok((heads, numbers))
}

// A vertex whose edges lead to classes.
fn copied(alloc: Global, vertex: &Vertex, numbers: &[usize]) -> Result<Vertex, Memory>
    requires { All (λ k. k < length numbers.now) vertex.now.next.items }
    ensures label { IfOk result (λ v. v.label ≡ vertex.now.label) }
    ensures next { IfOk result (λ v. v.next.items ≡ map (class_at numbers.now) vertex.now.next.items) }
{
    let mut next = Vec::with_capacity(alloc, vertex.next.len())?;
    push_classes(&mut next, numbers, &vertex.next)?;
    Ok(Vertex {
        label: vertex.label,
        next,
    })
}
