//! Whether two vertices of a graph are the same.
ghost use Rattle.std.specs.Prelude.{◌≡◌, ◌↔◌, ◌<◌, ◌≤◌, ◌++◌, ℕ, IsTrue, IfOk, OnOk, length, zip};
ghost use Rattle.hm_graph.specs.Same.{AreBisimilar, AreAlike, IsClosed};
ghost use Rattle.hm_graph.specs.Forests.{up, Climbs, IsShortened, AreRoots};

use hm_tree::Memory;
use std::alloc::Global;

/// A vertex: its label, and where its edges lead, in their order.
#[derive(Drop)]
pub struct Vertex {
    pub label: u64,
    pub next: Vec<usize>,
}

/// Whether two vertices are the same.
//
// Vertices that have to be the same are joined in a forest, and where two trees of it are joined, what the edges of
// their roots lead to has to be the same too. So each vertex is put below another one once at the most, and its edges
// are gone over once.
pub fn same(alloc: Global, graph: &[Vertex], one: usize, two: usize) -> Result<bool, Memory>
    requires closed { IsClosed graph.now }
    requires one { one < length graph.now }
    requires two { two < length graph.now }
    ensures same { IfOk result (λ yes. IsTrue yes ↔ AreBisimilar graph.now one two) }
    ensures alike { IfOk result (λ yes. IsTrue yes ↔ AreAlike graph.now one two) }
{
    let mut parents = itself(alloc, graph.len())?;
    let mut todo = Vec::new(alloc);
    todo.push((one, two))?;
    while let Some((first, second)) = todo.pop() {
        let (low, high) = roots(&mut parents, first, second);
        if low == high {
            continue;
        }
        if !alike(&graph[low], &graph[high]) {
            return Ok(false);
        }
        push_pairs(&mut todo, &graph[low].next, &graph[high].next)?;
        parents[high] = low;
    }
    Ok(true)
}

// Each vertex as its own parent.
fn itself(alloc: Global, count: usize) -> Result<Vec<usize>, Memory>
    ensures count { IfOk result (λ parents. length parents.items ≡ count) }
    ensures itself { IfOk result (λ parents. (i : ℕ) → up parents.items i ≡ i) }
{
    let mut parents = Vec::new(alloc);
    for i in 0..count {
        parents.push(i)?;
    }
    Ok(parents)
}

// The roots above two vertices, the lesser first. The ways to them become shorter.
fn roots(parents: &mut Vec<usize>, one: usize, two: usize) -> (usize, usize)
    requires falls { (i : ℕ) → up parents.old.items i ≤ i }
    requires one { one < length parents.old.items }
    requires two { two < length parents.old.items }
    ensures shortened { IsShortened parents.old.items parents.new.items }
    ensures roots { AreRoots parents.old.items one two result.0 result.1 }
{
    let first = root(parents, one);
    let second = root(parents, two);
    if first <= second {
        (first, second)
    } else {
        (second, first)
    }
}

// The root above a vertex. On the way to it each second vertex is put below its parent's parent.
fn root(parents: &mut Vec<usize>, start: usize) -> usize
    requires falls { (i : ℕ) → up parents.old.items i ≤ i }
    requires in_range { start < length parents.old.items }
    ensures shortened { IsShortened parents.old.items parents.new.items }
    ensures climbs { Climbs parents.old.items start result }
    ensures root { up parents.old.items result ≡ result }
    ensures in_range { result < length parents.old.items }
{
    let mut here = start;
    while parents[here] != here {
        let above = parents[here];
        parents[here] = parents[above];
        here = parents[here];
    }
    here
}

// Whether two vertices have equal labels and as many edges.
fn alike(one: &Vertex, two: &Vertex) -> bool
    ensures { IsTrue result ↔ (one.now.label ≡ two.now.label) × (length one.now.next.items ≡ length two.now.next.items) }
{
    one.label == two.label && one.next.len() == two.next.len()
}

// Puts the pairs of two lists behind others.
fn push_pairs(todo: &mut Vec<(usize, usize)>, one: &[usize], two: &[usize]) -> Result<(), Memory>
    requires { length one.now ≡ length two.now }
    ensures { OnOk result (todo.new.items ≡ todo.old.items ++ zip one.now two.now) }
{
    for i in 0..one.len() {
        todo.push((one[i], two[i]))?;
    }
    Ok(())
}
