//! The nodes that the lenses of a fork are checked at.
ghost use Rattle.std.specs.Prelude.{◌≡◌, ◌↔◌, ◌<◌, IsTrue, IfOk, IfSome, MatchOption, All, length, filter};
ghost use Rattle.std.specs.List.Sorted.{IsStrictlySortedBy};
ghost use Rattle.std.specs.FinSet.{contains};
ghost use Rattle.hm_tree.specs.Names.{name_cmp};
ghost use Rattle.hm_schema.specs.declared.node.Shape.{Shape as ShapeValue};
ghost use Rattle.hm_schema.specs.Values.{NodeOver};
ghost use Rattle.hm_types_nodes.specs.Parting.{shape_in, shape_out, has_twin};
ghost use Rattle.hm_types_forms.specs.Forms.{Form, form};
ghost use Rattle.hm_types_rules.specs.Typing.{IsForked};
ghost use Rattle.hm_types_rules.specs.Sources.{ForkSource};
ghost use Rattle.hm_types_table.specs.Tables.{AreFormed, Extends};
ghost use Rattle.hm_types_views.specs.Conditions.{Separates, IsTogether, CanPart};

use crate::shaped::add_two;
use hm_schema::{NodeId, Shape};
use hm_tree::{Memory, Name, NameSet};
use hm_types_table::{NodeKind, Table, all_listed, all_shut, has};
use std::alloc::Global;

/// Adds the node of the names of a node that are in a set, and that of its other names, where the node can be parted so.
pub fn parted(
    alloc: Global,
    table: &mut Table,
    id: NodeId,
    names: &NameSet,
) -> Result<Option<(NodeId, NodeId)>, Memory>
    requires { id.place < length table.old }
    ensures extends { Extends table.old table.new }
    ensures formed { AreFormed table.new }
    ensures in_range { IfOk result (λ o. IfSome o (λ p. (p.0.place < length table.new) × (p.1.place < length table.new))) }
    ensures parted { IfOk result (λ o. MatchOption o ((w : NodeOver Form) (a : ShapeValue) → ¬ (IsForked names.now (form table.old id) w a)) (λ p. ForkSource names.now (form table.old id) (form table.new p.0) (form table.new p.1))) }
{
    let kind = table.at(id).0;
    if !can_part(kind, names) {
        return Ok(None);
    }
    let (inside, outside) = parts(&kind.shapes[0], names)?;
    let twins_inside = twins_of(alloc, &kind.twins, &inside)?;
    let twins_outside = twins_of(alloc, &kind.twins, &outside)?;
    let first = (vec![in alloc; inside]?, twins_inside);
    let second = (vec![in alloc; outside]?, twins_outside);
    Ok(Some(add_two(alloc, table, id, first, second)?))
}

// Whether a node of a kind can be parted.
fn can_part(kind: &NodeKind, names: &NameSet) -> bool
    requires { IsStrictlySortedBy name_cmp kind.now.names.items }
    ensures { IsTrue result ↔ CanPart names.now kind.now }
{
    kind.shapes.len() == 1 && separates(kind, names) && are_together(&kind.twins, names)
}

/// Whether no shape of a kind lets an unlisted name in, or each name of a set is listed.
pub fn separates(kind: &NodeKind, names: &NameSet) -> bool
    requires { IsStrictlySortedBy name_cmp kind.now.names.items }
    ensures { IsTrue result ↔ Separates names.now kind.now }
{
    all_shut(&kind.shapes) || all_listed(names, &kind.names)
}

// Whether both names of each twin are in a set, or neither is.
fn are_together(twins: &[(Name, Name)], names: &NameSet) -> bool
    ensures { IsTrue result ↔ All (IsTogether names.now) twins.now }
{
    for twin in twins {
        if names.has(&twin.0) != names.has(&twin.1) {
            return false;
        }
    }
    true
}

// The part of a shape whose names are in a set, and the other part.
fn parts(shape: &Shape, names: &NameSet) -> Result<(Shape, Shape), Memory>
    ensures inside { IfOk result (λ p. p.0 ≡ shape_in (contains names.now) shape.now) }
    ensures outside { IfOk result (λ p. p.1 ≡ shape_out (contains names.now) shape.now) }
{
    let (required_in, required_out) = shape.required.parts(names)?;
    let (optional_in, optional_out) = shape.optional.parts(names)?;
    let inside = Shape {
        required: required_in,
        optional: optional_in,
        least: 0,
        most: Some(0),
    };
    let outside = Shape {
        required: required_out,
        optional: optional_out,
        least: shape.least,
        most: shape.most,
    };
    Ok((inside, outside))
}

// The twins whose names a shape has.
fn twins_of(
    alloc: Global,
    twins: &[(Name, Name)],
    shape: &Shape,
) -> Result<Vec<(Name, Name)>, Memory>
    ensures { IfOk result (λ v. v.items ≡ filter (has_twin shape.now) twins.now) }
{
    let mut kept = Vec::new(alloc);
    for twin in twins {
        if has(shape, &twin.0) && has(shape, &twin.1) {
            kept.push((twin.0.copy()?, twin.1.copy()?))?;
        }
    }
    Ok(kept)
}
