//! Nodes of the kind of another one over other nodes.
ghost use Rattle.std.specs.Prelude.{◌≡◌, ◌<◌, IsTrue, IfOk, Some, length, slice_get};
ghost use Rattle.hm_schema.specs.Values.{NodeValue};
ghost use Rattle.hm_types_table.specs.Tables.{AreFormed, Extends, CanReplace, replaced};

use hm_schema::NodeId;
use hm_tree::{Class, Memory};
use hm_types_table::{Table, equal_ends, equal_others};

/// The node of the kind of a node over other nodes: itself, where these are what it stands over, else one that is added. So a
/// view that is its source costs no node, and what was found at it is known.
pub fn over(
    table: &mut Table,
    id: NodeId,
    next: Vec<NodeId>,
    other: Option<(Class, NodeId)>,
) -> Result<NodeId, Memory>
    requires { CanReplace table.old id next.items other }
    ensures formed { AreFormed table.new }
    ensures extends { Extends table.old table.new }
    ensures node { IfOk result (λ j. (n : NodeValue) → slice_get table.old id.place ≡ Some n → slice_get table.new j.place ≡ Some (replaced n next.items other)) }
{
    if stands_over(table, id, &next, other) {
        return Ok(id);
    }
    Ok(table.add_like(id, next, other)?)
}

// Whether a node stands over just these nodes.
fn stands_over(table: &Table, id: NodeId, next: &[NodeId], other: Option<(Class, NodeId)>) -> bool
    requires { id.place < length table.now }
    ensures formed { AreFormed table.now }
    ensures over { IsTrue result → (n : NodeValue) → slice_get table.now id.place ≡ Some n → n ≡ replaced n next.now other }
{
    let vertex = table.at(id).1;
    equal_ends(&vertex.next, next) && equal_others(vertex.other, other)
}
