//! Which trees are members of what a node stands for.
ghost use Rattle.std.specs.Prelude.{◌≡◌, ◌↔◌, ◌<◌, IsTrue, IfSome, Some, length, slice_get};
ghost use Rattle.hm_schema.specs.Values.{NodeValue, child_of};
ghost use Rattle.hm_types_forms.specs.Forms.{form};
ghost use Rattle.hm_types_forms.specs.Members.{Member};
ghost use Rattle.hm_types_table.specs.Members.{Allows};
ghost use Rattle.hm_types_table.specs.Tables.{seat};

use crate::kind::NodeKind;
use crate::looks::{child, other};
use crate::names::beside;
use crate::table::Table;
use crate::vertex::Vertex;
use hm_schema::{Listing, NodeId, Shape, have_twins, permits};
use hm_tree::{Class, Name, Tree};

// A node as a table keeps it.
#[derive(Drop)]
struct Seated<'a> {
    kind: &'a NodeKind,
    vertex: &'a Vertex,
    ghost count: { length vertex.now.next.items ≡ length kind.now.names.items },
}

impl<'a> Listing for Seated<'a> {
    ghost node = { λ s. seat s.kind.now s.vertex.now };

    fn shapes(&self) -> &[Shape] {
        &self.kind.shapes
    }

    fn lists(&self, name: &Name) -> bool {
        beside(&self.kind.names, &self.vertex.next, name).is_some()
    }

    fn class(&self) -> Option<Class> {
        match self.vertex.other {
            Some(other) => Some(other.0),
            None => None,
        }
    }
}

/// Whether a tree is a member of what a node stands for.
pub fn member(table: &Table, id: NodeId, tree: &Tree) -> bool
    requires { id.place < length table.now }
    ensures { IsTrue result ↔ Member (form table.now id) tree.now }
{
    let _ = table.at(id);
    if !allows(table, id, tree) {
        return false;
    }
    for place in 0..tree.count() {
        let (name, below) = tree.edge(place);
        let Some(next) = led(table, id, name) else {
            return false;
        };
        if !member(table, next, below) {
            return false;
        }
    }
    true
}

// Whether the names of a tree are permitted at a node, and its twins are alike.
fn allows(table: &Table, id: NodeId, tree: &Tree) -> bool
    requires { id.place < length table.now }
    ensures { (n : NodeValue) → slice_get table.now id.place ≡ Some n → (IsTrue result ↔ Allows n tree.now) }
{
    let (kind, vertex) = table.at(id);
    permits(&Seated { kind, vertex }, tree) && have_twins(&kind.twins, tree)
}

// What a name leads to: where it is listed that, else what all other names lead to.
fn led(table: &Table, id: NodeId, name: &Name) -> Option<NodeId>
    requires { id.place < length table.now }
    ensures in_range { IfSome result (λ j. j.place < length table.now) }
    ensures child { (n : NodeValue) → slice_get table.now id.place ≡ Some n → result ≡ child_of n name.now }
{
    let _ = table.at(id);
    match child(table, id, name) {
        Some(node) => Some(node),
        None => match other(table, id) {
            Some(other) => Some(other.1),
            None => None,
        },
    }
}
