//! The nodes that the lenses of a conditional are checked at.
ghost use Rattle.std.specs.Prelude.{◌≡◌, ◌<◌, IfOk, IfSome, MatchOption, length};
ghost use Rattle.std.specs.List.Sorted.{IsStrictlySortedBy};
ghost use Rattle.hm_tree.specs.Names.{name_cmp};
ghost use Rattle.hm_schema.specs.Values.{NodeOver};
ghost use Rattle.hm_types_nodes.specs.Branching.{shapes_with, shapes_without};
ghost use Rattle.hm_types_forms.specs.Forms.{Form, form};
ghost use Rattle.hm_types_rules.specs.Typing.{IsBranched};
ghost use Rattle.hm_types_rules.specs.Sources.{BranchSource};
ghost use Rattle.hm_types_table.specs.Tables.{AreFormed, Extends};
ghost use Rattle.hm_types_views.specs.Conditions.{CanBranch};

use crate::shaped::add_two;
use hm_schema::{NodeId, Shape};
use hm_tree::{Memory, Name};
use hm_types_table::{NodeKind, Table, has, is_in};
use std::alloc::Global;

/// Adds the node with a name and that without it, where some shapes of a node may have the name and some needn't.
pub fn branched(
    alloc: Global,
    table: &mut Table,
    id: NodeId,
    name: &Name,
) -> Result<Option<(NodeId, NodeId)>, Memory>
    requires { id.place < length table.old }
    ensures extends { Extends table.old table.new }
    ensures formed { AreFormed table.new }
    ensures in_range { IfOk result (λ o. IfSome o (λ p. (p.0.place < length table.new) × (p.1.place < length table.new))) }
    ensures branched { IfOk result (λ o. MatchOption o ((w : NodeOver Form) → ¬ (IsBranched name.now (form table.old id) w)) (λ p. BranchSource name.now (form table.old id) (form table.new p.0) (form table.new p.1))) }
{
    let kind = table.at(id).0;
    let Some((with, without)) = sides(alloc, kind, name)? else {
        return Ok(None);
    };
    let first = (with, Vec::new(alloc));
    let second = (without, Vec::new(alloc));
    Ok(Some(add_two(alloc, table, id, first, second)?))
}

// The shapes that have a name and those that don't require it, where there are both.
fn sides(
    alloc: Global,
    kind: &NodeKind,
    name: &Name,
) -> Result<Option<(Vec<Shape>, Vec<Shape>)>, Memory>
    requires { IsStrictlySortedBy name_cmp kind.now.names.items }
    ensures can { IfOk result (λ o. MatchOption o (¬ (CanBranch name.now kind.now)) (λ p. CanBranch name.now kind.now)) }
    ensures with_it { IfOk result (λ o. IfSome o (λ p. p.0.items ≡ shapes_with name.now kind.now.shapes.items)) }
    ensures without_it { IfOk result (λ o. IfSome o (λ p. p.1.items ≡ shapes_without name.now kind.now.shapes.items)) }
{
    let with = having(alloc, &kind.shapes, name)?;
    let without = lacking(alloc, &kind.shapes, name)?;
    if !kind.twins.is_empty()
        || !is_in(&kind.names, name)
        || with.is_empty()
        || without.is_empty()
    {
        return Ok(None);
    }
    Ok(Some((with, without)))
}

// The shapes that have a name, which they then require.
fn having(alloc: Global, shapes: &[Shape], name: &Name) -> Result<Vec<Shape>, Memory>
    ensures { IfOk result (λ v. v.items ≡ shapes_with name.now shapes.now) }
{
    let mut kept = Vec::new(alloc);
    for shape in shapes {
        if has(shape, name) {
            kept.push(Shape {
                required: shape.required.with(name)?,
                optional: shape.optional.without(name)?,
                least: shape.least,
                most: shape.most,
            })?;
        }
    }
    Ok(kept)
}

// The shapes that don't require a name, which they then haven't.
fn lacking(alloc: Global, shapes: &[Shape], name: &Name) -> Result<Vec<Shape>, Memory>
    ensures { IfOk result (λ v. v.items ≡ shapes_without name.now shapes.now) }
{
    let mut kept = Vec::new(alloc);
    for shape in shapes {
        if !shape.required.has(name) {
            kept.push(Shape {
                required: shape.required.copy()?,
                optional: shape.optional.without(name)?,
                least: shape.least,
                most: shape.most,
            })?;
        }
    }
    Ok(kept)
}
