//! Which vertices lead only to vertices that have kept their numbers.
ghost use Rattle.std.specs.Prelude.{◌≡◌, ◌↔◌, ◌<◌, ℕ, List, [], ◌∷◌, true, IfOk, OnOk, All, length};
ghost use Rattle.hm_graph.specs.Same.{IsClosed};
ghost use Rattle.hm_graph_classes.specs.Calm.{AreSources, ArePut, AreCalm, Lacks, flag_at};

use hm_graph::Vertex;
use hm_tree::Memory;
use std::alloc::Global;

// For each vertex those whose edges lead to it.
pub fn sources(alloc: Global, graph: &[Vertex]) -> Result<Vec<Vec<usize>>, Memory>
    requires { IsClosed graph.now }
    ensures { IfOk result (λ lists. AreSources graph.now (length graph.now) lists.items) }
{
    let mut lists = empty_lists(alloc, graph.len())?;
    for i in 0..graph.len() {
        put_all(&mut lists, &graph[i].next, i)?;
    }
    Ok(lists)
}

fn empty_lists(alloc: Global, count: usize) -> Result<Vec<Vec<usize>>, Memory>
    ensures count { IfOk result (λ lists. length lists.items ≡ count) }
    ensures empty { IfOk result (λ lists. All (λ list. list.items ≡ []) lists.items) }
{
    let mut lists = Vec::with_capacity(alloc, count)?;
    for _ in 0..count {
        lists.push(Vec::new(alloc))?;
    }
    Ok(lists)
}

// Puts a number into the lists at some places.
fn put_all(lists: &mut Vec<Vec<usize>>, places: &[usize], number: usize) -> Result<(), Memory>
    requires { All (λ k. k < length lists.old.items) places.now }
    ensures { OnOk result (ArePut lists.old.items lists.new.items places.now number) }
{
    for place in places {
        put(lists, *place, number)?;
    }
    Ok(())
}

fn put(lists: &mut Vec<Vec<usize>>, place: usize, number: usize) -> Result<(), Memory>
    requires { place < length lists.old.items }
    ensures { OnOk result (ArePut lists.old.items lists.new.items (place ∷ []) number) }
{
    lists[place].push(number)?;
    Ok(())
}

// For each vertex whether all its edges lead to some whose numbers are what they were.
pub fn calm_of(
    alloc: Global,
    graph: &[Vertex],
    sources: &[Vec<usize>],
    old: &[usize],
    new: &[usize],
) -> Result<Vec<bool>, Memory>
    requires closed { IsClosed graph.now }
    requires sources { AreSources graph.now (length graph.now) sources.now }
    requires old { length old.now ≡ length graph.now }
    requires new { length new.now ≡ length graph.now }
    ensures { IfOk result (λ calm. AreCalm graph.now old.now new.now calm.items) }
{
    let mut calm = vec![in alloc; true; graph.len()]?;
    for i in 0..graph.len() {
        if old[i] != new[i] {
            clear(&mut calm, &sources[i]);
        }
    }
    Ok(calm)
}

// Sets the flags at some places to false.
fn clear(flags: &mut Vec<bool>, places: &[usize])
    requires { All (λ k. k < length flags.old.items) places.now }
    ensures size { length flags.new.items ≡ length flags.old.items }
    ensures each { (i : ℕ) → (flag_at flags.new.items i ≡ true) ↔ ((flag_at flags.old.items i ≡ true) × Lacks places.now i) }
{
    for place in places {
        flags[*place] = false;
    }
}

// Whether a vertex is calm; those that nothing is known of aren't.
pub fn is_calm(calm: &[bool], i: usize) -> bool
    ensures { result ≡ flag_at calm.now i }
{
    if i < calm.len() { calm[i] } else { false }
}
