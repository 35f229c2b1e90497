//! Numbers that take the vertices of a graph apart.
ghost use Rattle.std.specs.Prelude.{◌≡◌, ◌<◌, IfOk, length};
ghost use Rattle.hm_graph.specs.Same.{IsClosed};
ghost use Rattle.hm_graph_classes.specs.Apart.{Respects, IsRenumbered, IsPut};

use crate::calm::{calm_of, is_calm, sources};
use crate::partition::{equal, first, key_of, refined, zeros};
use hm_graph::Vertex;
use hm_tree::Memory;
use std::alloc::Global;
use std::collections::BTreeMap;

// Numbers of the vertices, of which alike ones have equal ones.
//
// In a round a vertex gets a new number only where its edges lead to one whose number is new; the others are calm. One class of
// those that are taken apart keeps its number, so few are new. A round costs a walk over the vertices, and a sorting of the
// edges of those that aren't calm.
pub fn apart(alloc: Global, graph: &[Vertex]) -> Result<Vec<usize>, Memory>
    requires { IsClosed graph.now }
    ensures { IfOk result (λ cs. Respects graph.now cs.items) }
{
    let begin = zeros(alloc, graph.len())?;
    let mut now = refined(alloc, graph, &begin)?;
    let sources = sources(alloc, graph)?;
    let mut calm = Vec::new(alloc);
    let mut fresh = graph.len();
    for _ in 0..graph.len() {
        let next = renumbered(alloc, graph, &calm, &now, &mut fresh)?;
        if equal(&next, &now) {
            break;
        }
        calm = calm_of(alloc, graph, &sources, &now, &next)?;
        now = next;
    }
    Ok(now)
}

// New numbers: calm vertices keep theirs, and the others get equal ones where they have one key.
fn renumbered(
    alloc: Global,
    graph: &[Vertex],
    calm: &[bool],
    now: &[usize],
    fresh: &mut usize,
) -> Result<Vec<usize>, Memory>
    requires closed { IsClosed graph.now }
    requires size { length now.now ≡ length graph.now }
    ensures { IfOk result (λ cs. IsRenumbered graph.now calm.now now.now cs.items) }
{
    let mut taken = taken_of(alloc, calm, now, *fresh)?;
    let mut known = BTreeMap::new(alloc);
    let mut next = Vec::with_capacity(alloc, graph.len())?;
    for i in 0..graph.len() {
        if is_calm(calm, i) {
            next.push(now[i])?;
            continue;
        }
        let number = numbered(alloc, graph, now, i, &mut known, &mut taken, fresh)?;
        next.push(number)?;
    }
    Ok(next)
}

// The number of the key of a vertex.
fn numbered(
    alloc: Global,
    graph: &[Vertex],
    now: &[usize],
    i: usize,
    known: &mut BTreeMap<(u64, Vec<usize>), usize>,
    taken: &mut Vec<bool>,
    fresh: &mut usize,
) -> Result<usize, Memory>
    requires closed { IsClosed graph.now }
    requires size { length now.now ≡ length graph.now }
    requires in_range { i < length graph.now }
    ensures { IfOk result (IsPut graph.now now.now i known.old known.new) }
{
    let key = key_of(alloc, graph, now, i)?;
    let value = if known.contains_key(&key) {
        0
    } else {
        name(taken, fresh, now[i])
    };
    Ok(first(known, key, value)?)
}

// Which numbers calm vertices have.
fn taken_of(
    alloc: Global,
    calm: &[bool],
    now: &[usize],
    count: usize,
) -> Result<Vec<bool>, Memory> {
    let mut taken = vec![in alloc; false; count]?;
    for i in 0..now.len() {
        if is_calm(calm, i) {
            take(&mut taken, now[i]);
        }
    }
    Ok(taken)
}

// Takes a number, if it isn't taken.
fn take(taken: &mut Vec<bool>, number: usize) -> bool {
    if number >= taken.len() || taken[number] {
        return false;
    }
    taken[number] = true;
    true
}

// The number of a class, if it isn't taken, or a fresh one.
fn name(taken: &mut Vec<bool>, fresh: &mut usize, class: usize) -> usize {
    if take(taken, class) {
        return class;
    }
    let number = *fresh;
    if number < usize::MAX {
        *fresh = number + 1;
    }
    number
}
