//! The view of a fork.
ghost use Rattle.std.specs.Prelude.{◌≡◌, ◌↔◌, ◌<◌, ◌≤◌, ◌*◌, ◌++◌, IsTrue, IfOk, OnOk, IfSome, MatchOption, All, Some, length, map};
ghost use Rattle.std.specs.List.Sorted.{IsStrictlySortedBy};
ghost use Rattle.hm_tree.specs.Names.{name_cmp};
ghost use Rattle.hm_schema.specs.Values.{NodeOver};
ghost use Rattle.hm_schema.specs.Shapes.{RequiresTwins};
ghost use Rattle.hm_types_nodes.specs.Joining.{joined_shape, joined_shapes};
ghost use Rattle.hm_types_forms.specs.Forms.{Form, form, node_of};
ghost use Rattle.hm_types_rules.specs.Typing.{AreJoinable};
ghost use Rattle.hm_types_rules.specs.Sources.{ForkView};
ghost use Rattle.hm_types_table.specs.Tables.{AreFormed, Extends};
ghost use Rattle.hm_types_views.specs.Conditions.{CanJoinKinds, AddsNothing};

use crate::overlays::overlaid;
use crate::parting::separates;
use hm_schema::{NodeId, Shape};
use hm_tree::{Memory, Name, NameSet};
use hm_types_table::{NodeKind, Table, all_have, all_shut, push_twins};
use std::alloc::Global;

/// Adds the node of the names that two nodes have between them, those of the first in a set, where they can be joined so.
pub fn joined(
    alloc: Global,
    table: &mut Table,
    one: NodeId,
    two: NodeId,
    names: &NameSet,
) -> Result<Option<NodeId>, Memory>
    requires one { one.place < length table.old }
    requires two { two.place < length table.old }
    requires twins { (n : NodeOver Form) → node_of (form table.old one) ≡ Some n → RequiresTwins n }
    ensures extends { Extends table.old table.new }
    ensures formed { AreFormed table.new }
    ensures in_range { IfOk result (λ o. IfSome o (λ j. j.place < length table.new)) }
    ensures joined { IfOk result (λ o. MatchOption o ((n m : NodeOver Form) → ¬ (AreJoinable names.now (form table.old one) (form table.old two) n m)) (λ j. ForkView names.now (form table.old one) (form table.old two) (form table.new j))) }
{
    let (first, one_vertex) = table.at(one);
    let (second, two_vertex) = table.at(two);
    if !can_join(first, second, names) {
        return Ok(None);
    }
    let shapes = all_joined(alloc, &first.shapes, &second.shapes)?;
    let (listed, next) = overlaid(
        alloc,
        names,
        &first.names,
        &one_vertex.next,
        &second.names,
        &two_vertex.next,
    )?;
    let twins = both_twins(alloc, &first.twins, &second.twins)?;
    let other = two_vertex.other;
    let kind = NodeKind {
        shapes,
        names: listed,
        twins,
    };
    Ok(Some(table.add(kind, next, other)?))
}

// Whether nodes of two kinds can be joined.
fn can_join(one: &NodeKind, two: &NodeKind, names: &NameSet) -> bool
    requires rises { IsStrictlySortedBy name_cmp two.now.names.items }
    requires some { 0 < length one.now.shapes.items }
    requires some_too { 0 < length two.now.shapes.items }
    ensures { IsTrue result ↔ CanJoinKinds names.now one.now two.now }
{
    are_few(one.shapes.len(), two.shapes.len())
        && all_shut(&one.shapes)
        && all_have(&one.shapes, names, true)
        && all_have(&two.shapes, names, false)
        && separates(two, names)
}

// Whether there are 256 pairs at the most.
fn are_few(ones: usize, twos: usize) -> bool
    requires ones { 0 < ones }
    requires twos { 0 < twos }
    ensures { IsTrue result ↔ (ones * twos ≤ 256) }
{
    if ones > 256 || twos > 256 {
        return false;
    }
    ones * twos <= 256
}

// A shape for each pair.
fn all_joined(alloc: Global, ones: &[Shape], twos: &[Shape]) -> Result<Vec<Shape>, Memory>
    requires { All AddsNothing ones.now }
    ensures { IfOk result (λ v. v.items ≡ joined_shapes ones.now twos.now) }
{
    let mut shapes = Vec::new(alloc);
    for one in ones {
        push_joined(&mut shapes, one, twos)?;
    }
    Ok(shapes)
}

// A shape for each pair with one shape.
fn push_joined(shapes: &mut Vec<Shape>, one: &Shape, twos: &[Shape]) -> Result<(), Memory>
    requires { AddsNothing one.now }
    ensures { OnOk result (shapes.new.items ≡ shapes.old.items ++ map (joined_shape one.now) twos.now) }
{
    for two in twos {
        shapes.push(Shape {
            required: one.required.union(&two.required)?,
            optional: one.optional.union(&two.optional)?,
            least: two.least,
            most: two.most,
        })?;
    }
    Ok(())
}

// The twins of both.
fn both_twins(
    alloc: Global,
    ones: &[(Name, Name)],
    twos: &[(Name, Name)],
) -> Result<Vec<(Name, Name)>, Memory>
    ensures { IfOk result (λ v. v.items ≡ ones.now ++ twos.now) }
{
    let mut twins = Vec::new(alloc);
    push_twins(&mut twins, ones)?;
    push_twins(&mut twins, twos)?;
    Ok(twins)
}
