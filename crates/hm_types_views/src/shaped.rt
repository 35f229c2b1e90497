//! Nodes that list what another node lists.
ghost use Rattle.std.specs.Prelude.{◌≡◌, ◌<◌, ◌++◌, ◌∷◌, [], Some, IfOk, OnOk, OnErr, length, slice_get};
ghost use Rattle.hm_schema.specs.Values.{NodeValue};
ghost use Rattle.hm_schema.specs.WellFormed.{IsWellFormedNode};
ghost use Rattle.hm_schema.specs.Shapes.{shaped};
ghost use Rattle.hm_types_forms.specs.Forms.{form, formed};
ghost use Rattle.hm_types_table.specs.Tables.{AreFormed, Extends, opened};

use hm_schema::{NodeId, Shape};
use hm_tree::{Memory, Name};
use hm_types_table::{NodeKind, Table, copies};
use std::alloc::Global;

/// Adds a node that lists what a node lists, with other shapes and other twins.
pub fn add_shaped(
    alloc: Global,
    table: &mut Table,
    id: NodeId,
    shapes: Vec<Shape>,
    twins: Vec<(Name, Name)>,
) -> Result<NodeId, Memory>
    requires in_range { id.place < length table.old }
    requires well { (n : NodeValue) → slice_get table.old id.place ≡ Some n → IsWellFormedNode (length table.old) (shaped n shapes.items twins.items) }
    ensures place { IfOk result (λ j. j.place ≡ length table.old) }
    ensures node { OnOk result ((n : NodeValue) → slice_get table.old id.place ≡ Some n → table.new ≡ table.old ++ shaped n shapes.items twins.items ∷ []) }
    ensures err { OnErr result (table.new ≡ table.old) }
    ensures formed { AreFormed table.new }
{
    let (kind, vertex) = table.at(id);
    let names = copies(alloc, &kind.names)?;
    let mut next = Vec::new(alloc);
    next.extend_from_slice(&vertex.next)?;
    let other = vertex.other;
    let kind = NodeKind {
        shapes,
        names,
        twins,
    };
    Ok(table.add(kind, next, other)?)
}

/// Adds two such nodes.
pub fn add_two(
    alloc: Global,
    table: &mut Table,
    id: NodeId,
    first: (Vec<Shape>, Vec<(Name, Name)>),
    second: (Vec<Shape>, Vec<(Name, Name)>),
) -> Result<(NodeId, NodeId), Memory>
    requires in_range { id.place < length table.old }
    requires first { (n : NodeValue) → slice_get table.old id.place ≡ Some n → IsWellFormedNode (length table.old) (shaped n first.0.items first.1.items) }
    requires second { (n : NodeValue) → slice_get table.old id.place ≡ Some n → IsWellFormedNode (length table.old) (shaped n second.0.items second.1.items) }
    ensures extends { Extends table.old table.new }
    ensures formed { AreFormed table.new }
    ensures in_range { IfOk result (λ p. (p.0.place < length table.new) × (p.1.place < length table.new)) }
    ensures first { IfOk result (λ p. (n : NodeValue) → slice_get table.old id.place ≡ Some n → form table.new p.0 ≡ formed (opened table.old (shaped n first.0.items first.1.items))) }
    ensures second { IfOk result (λ p. (n : NodeValue) → slice_get table.old id.place ≡ Some n → form table.new p.1 ≡ formed (opened table.old (shaped n second.0.items second.1.items))) }
{
    let _ = table.at(id);
    let one = add_shaped(alloc, table, id, first.0, first.1)?;
    let two = add_shaped(alloc, table, id, second.0, second.1)?;
    Ok((one, two))
}
