//! The view of a lens that hides a copy of a child.
ghost use Rattle.std.specs.Prelude.{◌≡◌, ◌↔◌, ◌<◌, ℕ, IsTrue, IfOk, IfSome, MatchOption, All, Some, length, map, slice_get};
ghost use Rattle.std.specs.FinMap.{find};
ghost use Rattle.hm_tree.specs.Names.{name_cmp};
ghost use Rattle.hm_schema.specs.Values.{NodeValue};
ghost use Rattle.hm_terms.specs.Lenses.{merge};
ghost use Rattle.hm_schema.specs.Shapes.{Requires};
ghost use Rattle.hm_types_nodes.specs.Merging.{unrequired};
ghost use Rattle.hm_types_forms.specs.Forms.{form};
ghost use Rattle.hm_types_rules.specs.Typing.{Types, Goes};
ghost use Rattle.hm_types_rules.specs.Faults.{Faults, at};
ghost use Rattle.hm_types_table.specs.Tables.{AreFormed, Extends};
ghost use Rattle.hm_types_views.specs.Hiding.{LeadToSame, CanHideKind};

use crate::shaped::add_shaped;
use hm_schema::{NodeId, Shape};
use hm_tree::{Memory, Name};
use hm_types_table::{NodeKind, Table, child, same};
use std::alloc::Global;

/// Adds the node without a second name, where this one and the first are required, lead to the same and are the only twins.
pub fn hidden(
    alloc: Global,
    table: &mut Table,
    id: NodeId,
    first: &Name,
    second: &Name,
) -> Result<Option<NodeId>, Memory>
    requires { id.place < length table.old }
    ensures extends { Extends table.old table.new }
    ensures formed { AreFormed table.new }
    ensures in_range { IfOk result (λ o. IfSome o (λ j. j.place < length table.new)) }
    ensures hidden { IfOk result (λ o. MatchOption o ((T : Types) (k : ℕ) → Faults T (merge first.now second.now) k (form table.old id) (at k 11)) (λ j. (T : Types) → Goes T (merge first.now second.now) (form table.old id) (form table.new j))) }
{
    let kind = table.at(id).0;
    if !can_hide(kind, first, second) || !lead_to_same(table, id, first, second) {
        return Ok(None);
    }
    let shapes = unrequiring(alloc, &kind.shapes, second)?;
    Ok(Some(add_shaped(alloc, table, id, shapes, Vec::new(alloc))?))
}

// Whether the second name can be hidden in a node of a kind, but for where the two names lead.
fn can_hide(kind: &NodeKind, first: &Name, second: &Name) -> bool
    ensures { IsTrue result ↔ CanHideKind first.now second.now kind.now }
{
    !first.same(second)
        && all_require(&kind.shapes, first)
        && all_require(&kind.shapes, second)
        && all_are(&kind.twins, first, second)
}

/// Whether each shape requires a name.
pub fn all_require(shapes: &[Shape], name: &Name) -> bool
    ensures { IsTrue result ↔ All (Requires name.now) shapes.now }
{
    for shape in shapes {
        if !shape.required.has(name) {
            return false;
        }
    }
    true
}

// Whether all twins are of these two names, in this order.
fn all_are(twins: &[(Name, Name)], first: &Name, second: &Name) -> bool
    ensures { IsTrue result ↔ All (λ twin. twin ≡ (first.now, second.now)) twins.now }
{
    for twin in twins {
        if !twin.0.same(first) || !twin.1.same(second) {
            return false;
        }
    }
    true
}

// Whether two names of a node lead to the same, where it lists both.
fn lead_to_same(table: &Table, id: NodeId, first: &Name, second: &Name) -> bool
    requires { id.place < length table.now }
    ensures { (n : NodeValue) → slice_get table.now id.place ≡ Some n → (IsTrue result ↔ LeadToSame table.now (find name_cmp first.now n.children) (find name_cmp second.now n.children)) }
{
    let _ = table.at(id);
    are_alike(table, child(table, id, first), child(table, id, second))
}

/// Whether two nodes stand for the same, where there are both.
pub fn are_alike(table: &Table, one: Option<NodeId>, two: Option<NodeId>) -> bool
    requires one { IfSome one (λ j. j.place < length table.now) }
    requires two { IfSome two (λ j. j.place < length table.now) }
    ensures { IsTrue result ↔ LeadToSame table.now one two }
{
    match (one, two) {
        (Some(one), Some(two)) => same(table, one, two),
        _ => true,
    }
}

/// The shapes, where a name isn't required.
pub fn unrequiring(alloc: Global, shapes: &[Shape], name: &Name) -> Result<Vec<Shape>, Memory>
    ensures { IfOk result (λ v. v.items ≡ map (unrequired name.now) shapes.now) }
{
    let mut all = Vec::new(alloc);
    for shape in shapes {
        all.push(unrequire(shape, name)?)?;
    }
    Ok(all)
}

/// A shape where a name isn't required.
pub fn unrequire(shape: &Shape, name: &Name) -> Result<Shape, Memory>
    ensures { IfOk result (λ a. a ≡ unrequired name.now shape.now) }
{
    Ok(Shape {
        required: shape.required.without(name)?,
        optional: shape.optional.copy()?,
        least: shape.least,
        most: shape.most,
    })
}
