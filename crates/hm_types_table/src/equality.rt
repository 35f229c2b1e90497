//! Which nodes are equal.
ghost use Rattle.std.specs.Prelude.{◌≡◌, ◌↔◌, ◌<◌, IsTrue, length, slice_get};

use crate::kind::NodeKind;
use crate::sameness::same;
use crate::table::Table;
use crate::vertex::Vertex;
use hm_schema::{NodeId, Shape};
use hm_tree::{Class, Name};

/// Whether two nodes are equal: they have equal shapes in one order, equal twins in one order, and the same names, which
/// lead to the same nodes. Such nodes stand for the same form.
pub fn equal(table: &Table, one: NodeId, two: NodeId) -> bool
    requires one { one.place < length table.now }
    requires two { two.place < length table.now }
    ensures { IsTrue result ↔ (slice_get table.now one.place ≡ slice_get table.now two.place) }
{
    // Nodes that differ mostly do so in this, which costs nothing.
    if !same(table, one, two) {
        return false;
    }
    let (kind, vertex) = table.at(one);
    let (other_kind, other_vertex) = table.at(two);
    lead_alike(vertex, other_vertex) && are_alike(kind, other_kind)
}

// Whether two vertices lead to the same nodes.
fn lead_alike(one: &Vertex, two: &Vertex) -> bool
    ensures { IsTrue result ↔ ((one.now.next.items ≡ two.now.next.items) × (one.now.other ≡ two.now.other)) }
{
    equal_ends(&one.next, &two.next) && equal_others(one.other, two.other)
}

// Whether two kinds are equal.
fn are_alike(one: &NodeKind, two: &NodeKind) -> bool
    ensures { IsTrue result ↔ ((one.now.names.items ≡ two.now.names.items) × (one.now.twins.items ≡ two.now.twins.items) × (one.now.shapes.items ≡ two.now.shapes.items)) }
{
    equal_names(&one.names, &two.names)
        && equal_twins(&one.twins, &two.twins)
        && equal_shapes(&one.shapes, &two.shapes)
}

/// Whether the same nodes stand in one order.
pub fn equal_ends(one: &[NodeId], two: &[NodeId]) -> bool
    ensures { IsTrue result ↔ (one.now ≡ two.now) }
{
    one == two
}

/// Whether all other names are of one class and lead to one node, or there are none.
pub fn equal_others(one: Option<(Class, NodeId)>, two: Option<(Class, NodeId)>) -> bool
    ensures { IsTrue result ↔ (one ≡ two) }
{
    match (one, two) {
        (Some(one), Some(two)) => one.0 == two.0 && one.1.place == two.1.place,
        (None, None) => true,
        _ => false,
    }
}

fn equal_names(one: &[Name], two: &[Name]) -> bool
    ensures { IsTrue result ↔ (one.now ≡ two.now) }
{
    one == two
}

fn equal_twins(one: &[(Name, Name)], two: &[(Name, Name)]) -> bool
    ensures { IsTrue result ↔ (one.now ≡ two.now) }
{
    one == two
}

fn equal_shapes(one: &[Shape], two: &[Shape]) -> bool
    ensures { IsTrue result ↔ (one.now ≡ two.now) }
{
    one == two
}
