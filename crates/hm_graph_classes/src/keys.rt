//! Keys by which vertices are found.
ghost use Rattle.std.specs.Prelude.{◌≡◌, ◌++◌, ◌∷◌, [], ℕ, IfOk, OnOk, OnErr, MatchOption, Some, length};
ghost use Rattle.std.specs.BTreeMap.{IsUnchanged, Updates};
ghost use Rattle.hm_graph_classes.specs.Reduced.{IsReduced};
ghost use Rattle.hm_graph_classes.specs.Indexed.{AreKnown, AreLoops, key_cmp};

use hm_graph::Vertex;
use hm_tree::Memory;
use std::alloc::Global;
use std::collections::BTreeMap;

// The vertices of a reduced graph by their labels and their edges.
pub fn known_of(
    alloc: Global,
    vertices: &[Vertex],
) -> Result<BTreeMap<(u64, Vec<usize>), usize>, Memory>
    requires { IsReduced vertices.now }
    ensures { IfOk result (AreKnown vertices.now (length vertices.now)) }
{
    let mut known = BTreeMap::new(alloc);
    for i in 0..vertices.len() {
        let vertex = &vertices[i];
        known.insert((vertex.label, vertex.next.clone()?), i)?;
    }
    Ok(known)
}

// The vertices of a reduced graph that have two edges, of which the second leads to themselves, by their labels and their
// first edges.
pub fn loops_of(alloc: Global, vertices: &[Vertex]) -> Result<BTreeMap<(u64, usize), usize>, Memory>
    requires { IsReduced vertices.now }
    ensures { IfOk result (AreLoops vertices.now (length vertices.now)) }
{
    let mut loops = BTreeMap::new(alloc);
    for i in 0..vertices.len() {
        let vertex = &vertices[i];
        if let Some(first) = first_of_loop(vertex, i) {
            loops.insert((vertex.label, first), i)?;
        }
    }
    Ok(loops)
}

// Where the first edge of a vertex leads, if there are two and the second leads to itself.
fn first_of_loop(vertex: &Vertex, itself: usize) -> Option<usize>
    ensures { MatchOption result ((first : ℕ) → ¬ (vertex.now.next.items ≡ first ∷ itself ∷ [])) (λ first. vertex.now.next.items ≡ first ∷ itself ∷ []) }
{
    if vertex.next.len() == 2 && vertex.next[1] == itself {
        Some(vertex.next[0])
    } else {
        None
    }
}

// Puts a vertex behind others, and where it is found by its key.
pub fn put(
    vertices: &mut Vec<Vertex>,
    known: &mut BTreeMap<(u64, Vec<usize>), usize>,
    key: (u64, Vec<usize>),
) -> Result<usize, Memory>
    ensures place { IfOk result (λ c. c ≡ length vertices.old.items) }
    ensures vertices { OnOk result (vertices.new.items ≡ vertices.old.items ++ record { label = key.0; next = key.1 } ∷ []) }
    ensures known { OnOk result (Updates key_cmp known.old known.new key (Some (length vertices.old.items))) }
    ensures same_vertices { OnErr result (vertices.new.items ≡ vertices.old.items) }
    ensures same_known { OnErr result (IsUnchanged known.old known.new) }
{
    let place = vertices.len();
    // So that the last step has room.
    vertices.reserve(1)?;
    known.insert((key.0, key.1.clone()?), place)?;
    let (label, next) = key;
    vertices.push(Vertex { label, next })?;
    Ok(place)
}
