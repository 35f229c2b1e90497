//! The view of a lens that copies a child under another name.
ghost use Rattle.std.specs.Prelude.{◌≡◌, ◌↔◌, ◌<◌, ℕ, IsTrue, IfOk, IfSome, MatchOption, All, Some, length, map, slice_get};
ghost use Rattle.std.specs.List.{zip};
ghost use Rattle.std.specs.List.Sorted.{IsStrictlySortedBy};
ghost use Rattle.std.specs.FinMap.{find};
ghost use Rattle.hm_tree.specs.Names.{name_cmp};
ghost use Rattle.hm_schema.specs.Values.{NodeValue};
ghost use Rattle.hm_terms.specs.Lenses.{copy};
ghost use Rattle.hm_types_nodes.specs.Copying.{CanCopy, with_required};
ghost use Rattle.hm_types_forms.specs.Forms.{form};
ghost use Rattle.hm_types_rules.specs.Typing.{Types, Goes};
ghost use Rattle.hm_types_rules.specs.Faults.{Faults, at};
ghost use Rattle.hm_types_table.specs.Tables.{AreFormed, Extends};
ghost use Rattle.hm_types_views.specs.Conditions.{MayCopy};
ghost use Rattle.hm_types_views.specs.Overlays.{HasEdge};

use crate::overlays::overlaid;
use hm_schema::{NodeId, Shape};
use hm_tree::{Memory, Name, NameSet};
use hm_types_table::{NodeKind, Table, child, has, is_in, is_shut};
use std::alloc::Global;

/// Adds the node at which the child of a name stands under a second name too, where this can't stand and the first one is
/// required.
pub fn copied(
    alloc: Global,
    table: &mut Table,
    id: NodeId,
    first: &Name,
    second: &Name,
) -> Result<Option<NodeId>, Memory>
    requires { id.place < length table.old }
    ensures extends { Extends table.old table.new }
    ensures formed { AreFormed table.new }
    ensures in_range { IfOk result (λ o. IfSome o (λ j. j.place < length table.new)) }
    ensures copied { IfOk result (λ o. MatchOption o ((T : Types) (k : ℕ) → Faults T (copy first.now second.now) k (form table.old id) (at k 10)) (λ j. (T : Types) → Goes T (copy first.now second.now) (form table.old id) (form table.new j))) }
{
    let _ = table.at(id);
    let Some(below) = source(table, id, first, second) else {
        return Ok(None);
    };
    let (kind, vertex) = table.at(id);
    let shapes = requiring(alloc, &kind.shapes, second)?;
    let (names, next) = with_edge(alloc, second, below, &kind.names, &vertex.next)?;
    let twins = vec![in alloc; (first.copy()?, second.copy()?)]?;
    let other = vertex.other;
    let kind = NodeKind {
        shapes,
        names,
        twins,
    };
    Ok(Some(table.add(kind, next, other)?))
}

// What the first name leads to, where its child can be copied.
fn source(table: &Table, id: NodeId, first: &Name, second: &Name) -> Option<NodeId>
    requires { id.place < length table.now }
    ensures { (n : NodeValue) → slice_get table.now id.place ≡ Some n → MatchOption result (¬ (CanCopy first.now second.now n)) (λ j. CanCopy first.now second.now n × (find name_cmp first.now n.children ≡ Some j)) }
{
    let kind = table.at(id).0;
    let listed = is_in(&kind.names, second);
    if !kind.twins.is_empty() || !all_may(&kind.shapes, first, second, listed) {
        return None;
    }
    child(table, id, first)
}

// Whether every shape allows it.
fn all_may(shapes: &[Shape], first: &Name, second: &Name, listed: bool) -> bool
    ensures { IsTrue result ↔ All (MayCopy first.now second.now listed) shapes.now }
{
    for shape in shapes {
        if !may(shape, first, second, listed) {
            return false;
        }
    }
    true
}

fn may(shape: &Shape, first: &Name, second: &Name, listed: bool) -> bool
    ensures { IsTrue result ↔ MayCopy first.now second.now listed shape.now }
{
    shape.required.has(first) && !has(shape, second) && (is_shut(shape) || listed)
}

// The shapes, with a name required.
fn requiring(alloc: Global, shapes: &[Shape], name: &Name) -> Result<Vec<Shape>, Memory>
    ensures { IfOk result (λ v. v.items ≡ map (with_required name.now) shapes.now) }
{
    let mut all = Vec::new(alloc);
    for shape in shapes {
        all.push(Shape {
            required: shape.required.with(name)?,
            optional: shape.optional.copy()?,
            least: shape.least,
            most: shape.most,
        })?;
    }
    Ok(all)
}

// Names and what they lead to, where one name leads to a node.
fn with_edge(
    alloc: Global,
    name: &Name,
    below: NodeId,
    names: &[Name],
    next: &[NodeId],
) -> Result<(Vec<Name>, Vec<NodeId>), Memory>
    requires rises { IsStrictlySortedBy name_cmp names.now }
    requires count { length next.now ≡ length names.now }
    ensures { IfOk result (λ r. HasEdge name.now below (zip names.now next.now) r.0.items r.1.items) }
{
    let one = vec![in alloc; name.copy()?]?;
    let set = NameSet::from_list(vec![in alloc; name.copy()?]?)?;
    Ok(overlaid(alloc, &set, &one, &[below], names, next)?)
}
