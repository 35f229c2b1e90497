//! The view of a text lens.
ghost use Rattle.std.specs.Prelude.{◌≡◌, ◌≢◌, ◌↔◌, ◌<◌, ℕ, IsTrue, IfOk, IfSome, MatchOption, All, Some, length, slice_get};
ghost use Rattle.hm_tree.specs.Names.{Name as NameValue};
ghost use Rattle.hm_schema.specs.declared.node.NodeId.{NodeId as IdValue};
ghost use Rattle.hm_schema.specs.Values.{NodeValue};
ghost use Rattle.hm_terms.specs.Lenses.{text};
ghost use Rattle.hm_schema_lists.specs.Values.{IsValueNode, IsEmptyNode};
ghost use Rattle.hm_types_forms.specs.Forms.{form};
ghost use Rattle.hm_types_rules.specs.Typing.{Types, Goes};
ghost use Rattle.hm_types_rules.specs.Faults.{Faults, at};
ghost use Rattle.hm_types_table.specs.Tables.{AreFormed, Extends};
ghost use Rattle.hm_types_views.specs.Values.{bare_shape};

use hm_schema::{NodeId, Shape, copy_shapes};
use hm_tree::{Class, Memory};
use hm_types_table::{NodeKind, Table, is_bare};
use std::alloc::Global;

/// Adds the node of values of the class that a text lens shows, where a node is one of values of the class that it reads.
pub fn valued(
    alloc: Global,
    table: &mut Table,
    id: NodeId,
    from: Class,
    into: Class,
) -> Result<Option<NodeId>, Memory>
    requires { id.place < length table.old }
    ensures extends { Extends table.old table.new }
    ensures formed { AreFormed table.new }
    ensures in_range { IfOk result (λ o. IfSome o (λ j. j.place < length table.new)) }
    ensures valued { IfOk result (λ o. MatchOption o ((T : Types) (x : NameValue) (k : ℕ) → T.texts x ≡ Some (from, into) → Faults T (text x) k (form table.old id) (at k 14)) (λ j. (T : Types) (x : NameValue) → T.texts x ≡ Some (from, into) → Goes T (text x) (form table.old id) (form table.new j))) }
{
    let kind = table.at(id).0;
    let below = match value_below(table, id, from) {
        Some(below) => below,
        None => return Ok(None),
    };
    if !is_empty_at(table, below) {
        return Ok(None);
    }
    let kind = NodeKind {
        shapes: copy_shapes(alloc, &kind.shapes)?,
        names: Vec::new(alloc),
        twins: Vec::new(alloc),
    };
    Ok(Some(table.add(kind, Vec::new(alloc), Some((into, below)))?))
}

// What names lead to, where a node is one of values of a class.
fn value_below(table: &Table, id: NodeId, class: Class) -> Option<NodeId>
    requires { id.place < length table.now }
    ensures in_range { IfSome result (λ i. i.place < length table.now) }
    ensures values { (n : NodeValue) → slice_get table.now id.place ≡ Some n → MatchOption result ((i : IdValue) → ¬ (IsValueNode class i n)) (λ i. IsValueNode class i n) }
{
    let (kind, vertex) = table.at(id);
    if !kind.names.is_empty() || !all_bare(&kind.shapes, 1) {
        return None;
    }
    below_class(vertex.other, class)
}

// What all other names lead to, where they are of a class.
fn below_class(other: Option<(Class, NodeId)>, class: Class) -> Option<NodeId>
    ensures { MatchOption result ((i : IdValue) → other ≢ Some (class, i)) (λ i. other ≡ Some (class, i)) }
{
    match other {
        Some(other) if other.0 == class => Some(other.1),
        _ => None,
    }
}

// Whether a node permits the empty set of names alone.
fn is_empty_at(table: &Table, id: NodeId) -> bool
    requires { id.place < length table.now }
    ensures { (n : NodeValue) → slice_get table.now id.place ≡ Some n → (IsTrue result ↔ IsEmptyNode n) }
{
    all_bare(&table.at(id).0.shapes, 0)
}

// Whether each shape has no names, and lets in just so many that aren't listed.
fn all_bare(shapes: &[Shape], count: u64) -> bool
    ensures { IsTrue result ↔ All (λ a. a ≡ bare_shape count) shapes.now }
{
    for shape in shapes {
        if !is_bare_of(shape, count) {
            return false;
        }
    }
    true
}

fn is_bare_of(shape: &Shape, count: u64) -> bool
    ensures { IsTrue result ↔ (shape.now ≡ bare_shape count) }
{
    is_bare(&shape.required)
        && is_bare(&shape.optional)
        && shape.least == count
        && is_most(shape, count)
}

fn is_most(shape: &Shape, count: u64) -> bool
    ensures { IsTrue result ↔ (shape.now.most ≡ Some count) }
{
    match shape.most {
        Some(most) => most == count,
        None => false,
    }
}
