//! The graph of the nodes of a table.
ghost use Rattle.std.specs.Prelude.{◌≡◌, ◌<◌, ℕ, Some, length, slice_get, IfOk};
ghost use Rattle.hm_schema.specs.Numbering.{IsNumbering};
ghost use Rattle.hm_schema.specs.Labels.{label_cmp};
ghost use Rattle.hm_types_table.specs.Classes.{AreOutlines, HaveSizes, AreVertices};

use crate::edges::edges_left;
use crate::outline::{Outline, outline_of};
use crate::seats::Seats;
use crate::vertex::class_of;
use hm_graph::Vertex;
use hm_schema::{Label, NodeId};
use hm_tree::Memory;
use std::alloc::Global;
use std::collections::BTreeMap;

/// The outline of each node.
pub fn outlines_of(
    alloc: Global,
    nodes: &Seats,
    numbers: &mut BTreeMap<Label, u64>,
) -> Result<Vec<Outline>, Memory>
    requires { IsNumbering label_cmp numbers.old }
    ensures size { IfOk result (λ v. length v.items ≡ length nodes.now) }
    ensures outlines { IfOk result (λ v. AreOutlines numbers.new nodes.now v.items) }
    ensures numbering { IsNumbering label_cmp numbers.new }
{
    let mut outlines = Vec::with_capacity(alloc, nodes.count())?;
    for place in 0..nodes.count() {
        let (kind, vertex) = nodes.at(NodeId { place });
        outlines.push(outline_of(kind, class_of(vertex.other), numbers)?)?;
    }
    Ok(outlines)
}

/// A vertex for each node, which has the number of its label and its edges, tidied.
pub fn graph_of(alloc: Global, nodes: &Seats, outlines: &[Outline]) -> Result<Vec<Vertex>, Memory>
    requires size { length outlines.now ≡ length nodes.now }
    requires sizes { HaveSizes nodes.now outlines.now }
    ensures size { IfOk result (λ v. length v.items ≡ length nodes.now) }
    ensures vertices { IfOk result (λ v. AreVertices nodes.now outlines.now v.items) }
{
    let mut graph = Vec::with_capacity(alloc, outlines.len())?;
    for place in 0..outlines.len() {
        let vertex = nodes.at(NodeId { place }).1;
        let outline = &outlines[place];
        let next = edges_left(alloc, outline, &vertex.next, vertex.other)?;
        graph.push(Vertex {
            label: outline.label,
            next,
        })?;
    }
    Ok(graph)
}

/// The first places.
pub fn places(alloc: Global, count: usize) -> Result<Vec<usize>, Memory>
    ensures size { IfOk result (λ v. length v.items ≡ count) }
    ensures places { IfOk result (λ v. (i : ℕ) → i < count → slice_get v.items i ≡ Some i) }
{
    let mut places = Vec::with_capacity(alloc, count)?;
    for place in 0..count {
        places.push(place)?;
    }
    Ok(places)
}
