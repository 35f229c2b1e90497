//! Where the edges of nodes lead when they are tidied.
ghost use Rattle.std.specs.Prelude.{◌≡◌, ◌<◌, ◌++◌, cond, None, length, IfOk, OnOk, All, map};
ghost use Rattle.hm_graph_classes.specs.Reduced.{class_at};
ghost use Rattle.hm_types_table.specs.Classes.{ends_left, other_ends};

use crate::outline::{Outline, is_left};
use hm_schema::NodeId;
use hm_tree::{Class, Memory};
use std::alloc::Global;

/// The places of the nodes that the edges of a node with an outline lead to, if its names lead to these.
pub fn edges_left(
    alloc: Global,
    outline: &Outline,
    next: &[NodeId],
    other: Option<(Class, NodeId)>,
) -> Result<Vec<usize>, Memory>
    requires { length outline.now.standing.items ≡ length next.now }
    ensures { IfOk result (λ v. v.items ≡ map (λ j. j.place) (ends_left outline.now next.now other)) }
{
    let mut edges = Vec::new(alloc);
    for place in 0..next.len() {
        if is_left(outline.lets_in, &outline.standing, place) {
            edges.push(next[place].place)?;
        }
    }
    push_other(&mut edges, outline.lets_in, other)?;
    Ok(edges)
}

// Puts the place of the node of all other names behind others, if these are let in.
fn push_other(
    edges: &mut Vec<usize>,
    lets_in: bool,
    other: Option<(Class, NodeId)>,
) -> Result<(), Memory>
    ensures { OnOk result (edges.new.items ≡ edges.old.items ++ map (λ j. j.place) (other_ends (cond lets_in other None))) }
{
    match other {
        Some(other) if lets_in => edges.push(other.1.place)?,
        _ => (),
    }
    Ok(())
}

/// The classes of the nodes at some places.
pub fn classes_at(alloc: Global, classes: &[usize], places: &[usize]) -> Result<Vec<usize>, Memory>
    requires { All (λ k. k < length classes.now) places.now }
    ensures { IfOk result (λ v. v.items ≡ map (class_at classes.now) places.now) }
{
    let mut at = Vec::with_capacity(alloc, places.len())?;
    for place in places {
        at.push(classes[*place])?;
    }
    Ok(at)
}
