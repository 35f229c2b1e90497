//! What is read off a node.
ghost use Rattle.std.specs.Prelude.{◌≡◌, ◌↔◌, ◌<◌, IsTrue, IfOk, MatchOption, Some, false, [], length, map, slice_get};
ghost use Rattle.std.specs.FinMap.{find};
ghost use Rattle.hm_tree.specs.Names.{Name as NameValue, name_cmp};
ghost use Rattle.hm_schema.specs.declared.node.NodeId.{NodeId as IdValue};
ghost use Rattle.hm_schema.specs.Values.{NodeValue, is_listed};
ghost use Rattle.hm_schema.specs.Tidied.{stands, lets_some_in as lets_in_some};

use crate::names::{beside, place};
use crate::table::Table;
use hm_schema::NodeId;
use hm_tree::{Class, Memory, Name};
use std::alloc::Global;

/// Whether a node has no twins.
pub fn is_plain(table: &Table, id: NodeId) -> bool
    requires { id.place < length table.now }
    ensures { (n : NodeValue) → slice_get table.now id.place ≡ Some n → (IsTrue result ↔ (n.twins ≡ [])) }
{
    table.at(id).0.twins.is_empty()
}

/// How many names a node lists.
pub fn count(table: &Table, id: NodeId) -> usize
    requires { id.place < length table.now }
    ensures { (n : NodeValue) → slice_get table.now id.place ≡ Some n → result ≡ length n.children }
{
    table.at(id).1.next.len()
}

/// What a listed name leads to, and whether the name stands in a shape.
pub fn listed(table: &Table, id: NodeId, place: usize) -> (NodeId, bool)
    requires in_range { id.place < length table.now }
    requires place { (n : NodeValue) → slice_get table.now id.place ≡ Some n → place < length n.children }
    ensures { (n : NodeValue) → slice_get table.now id.place ≡ Some n → (k : NameValue) × ((slice_get n.children place ≡ Some (k, result.0)) × (result.1 ≡ stands n k)) }
{
    (
        table.at(id).1.next[place],
        table.outline(id).standing[place],
    )
}

/// What a name leads to, where it is listed.
pub fn child(table: &Table, id: NodeId, name: &Name) -> Option<NodeId>
    requires { id.place < length table.now }
    ensures { (n : NodeValue) → slice_get table.now id.place ≡ Some n → result ≡ find name_cmp name.now n.children }
{
    let (kind, vertex) = table.at(id);
    beside(&kind.names, &vertex.next, name)
}

/// Whether a name is listed.
pub fn lists(table: &Table, id: NodeId, name: &Name) -> bool
    requires { id.place < length table.now }
    ensures { (n : NodeValue) → slice_get table.now id.place ≡ Some n → result ≡ is_listed n name.now }
{
    child(table, id, name).is_some()
}

/// The class of all other names and what they lead to, where there are such.
pub fn other(table: &Table, id: NodeId) -> Option<(Class, NodeId)>
    requires { id.place < length table.now }
    ensures { (n : NodeValue) → slice_get table.now id.place ≡ Some n → result ≡ n.other }
{
    table.at(id).1.other
}

/// Whether a node lets unlisted names in.
pub fn lets_some_in(table: &Table, id: NodeId) -> bool
    requires { id.place < length table.now }
    ensures { (n : NodeValue) → slice_get table.now id.place ≡ Some n → result ≡ lets_in_some n }
{
    table.outline(id).lets_in
}

/// What the listed names lead to, in their order.
pub fn targets(alloc: Global, table: &Table, id: NodeId) -> Result<Vec<NodeId>, Memory>
    requires { id.place < length table.now }
    ensures { IfOk result (λ v. (n : NodeValue) → slice_get table.now id.place ≡ Some n → v.items ≡ map (λ c. c.1) n.children) }
{
    let vertex = table.at(id).1;
    let mut next = Vec::new(alloc);
    next.extend_from_slice(&vertex.next)?;
    Ok(next)
}

/// Where a name stands among the listed names, if it is listed.
pub fn place_of(table: &Table, id: NodeId, name: &Name) -> Option<usize>
    requires { id.place < length table.now }
    ensures { (n : NodeValue) → slice_get table.now id.place ≡ Some n → MatchOption result (is_listed n name.now ≡ false) (λ p. (j : IdValue) × (slice_get n.children p ≡ Some (name.now, j))) }
{
    place(&table.at(id).0.names, name)
}
