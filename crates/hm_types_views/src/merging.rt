//! The view of a conditional that its view tells apart.
ghost use Rattle.std.specs.Prelude.{◌≡◌, ◌↔◌, ◌<◌, ◌++◌, ◌⊎◌, false, not, cond, IsTrue, IfOk, OnOk, IfSome, MatchOption, All, Some, length, map, filter, slice_get};
ghost use Rattle.std.specs.List.{list_any};
ghost use Rattle.std.specs.List.Sorted.{IsSorted, IsStrictlySortedBy};
ghost use Rattle.std.specs.FinMap.{find};
ghost use Rattle.hm_tree.specs.Names.{Name as NameValue, name_cmp};
ghost use Rattle.hm_schema.specs.ShapeOrder.{shape_cmp};
ghost use Rattle.hm_schema.specs.Tidied.{has_name};
ghost use Rattle.hm_schema.specs.Values.{NodeOver, NodeValue};
ghost use Rattle.hm_schema.specs.Shapes.{IsShut};
ghost use Rattle.hm_types_nodes.specs.Merging.{same_shape, unrequired, loosened, merged_shapes};
ghost use Rattle.hm_types_forms.specs.Forms.{Form, form};
ghost use Rattle.hm_types_rules.specs.Typing.{AreMergeable};
ghost use Rattle.hm_types_rules.specs.Sources.{MergeView};
ghost use Rattle.hm_types_views.specs.Conditions.{IsIn};
ghost use Rattle.hm_types_views.specs.Hiding.{LeadToSame};
ghost use Rattle.hm_types_views.specs.Merging.{AreAmong, ListAlike, AreShut, AreApart, CanMergeKinds, OthersAgree, NodesAgree};
ghost use Rattle.hm_types_table.specs.Tables.{AreFormed, Extends};

use crate::hiding::{all_require, are_alike, unrequire, unrequiring};
use crate::overlays::overlaid;
use hm_schema::{NodeId, Shape, copy_shapes};
use hm_tree::{Class, Memory, Name, NameSet};
use hm_types_table::{NodeKind, Table, all_shut, child, copies, has, is_in, other, same};
use std::alloc::Global;

/// Adds the node of the shapes of two nodes, merged on a name that tells them apart, where they agree on all else.
pub fn merged(
    alloc: Global,
    table: &mut Table,
    one: NodeId,
    two: NodeId,
    name: &Name,
) -> Result<Option<NodeId>, Memory>
    requires one { one.place < length table.old }
    requires two { two.place < length table.old }
    ensures extends { Extends table.old table.new }
    ensures formed { AreFormed table.new }
    ensures in_range { IfOk result (λ o. IfSome o (λ j. j.place < length table.new)) }
    ensures merged { IfOk result (λ o. MatchOption o ((n m : NodeOver Form) → ¬ (AreMergeable name.now (form table.old one) (form table.old two) n m)) (λ j. MergeView name.now (form table.old one) (form table.old two) (form table.new j))) }
{
    let (first, one_vertex) = table.at(one);
    let (second, two_vertex) = table.at(two);
    if !can_merge(first, second, name) || !agree(table, one, two) {
        return Ok(None);
    }
    let shapes = merge_shapes(alloc, &first.shapes, &second.shapes, name)?;
    if shapes.len() > 256 {
        return Ok(None);
    }
    let all = NameSet::from_list(copies(alloc, &first.names)?)?;
    let (names, next) = overlaid(
        alloc,
        &all,
        &first.names,
        &one_vertex.next,
        &second.names,
        &two_vertex.next,
    )?;
    let other = one_vertex.other.or(two_vertex.other);
    let kind = NodeKind {
        shapes,
        names,
        twins: Vec::new(alloc),
    };
    Ok(Some(table.add(kind, next, other)?))
}

// Whether nodes of two kinds can be merged, but for where their names lead and how many shapes there are.
fn can_merge(one: &NodeKind, two: &NodeKind, name: &Name) -> bool
    requires one { IsStrictlySortedBy name_cmp one.now.names.items }
    requires two { IsStrictlySortedBy name_cmp two.now.names.items }
    ensures { IsTrue result ↔ CanMergeKinds name.now one.now two.now }
{
    one.twins.is_empty()
        && two.twins.is_empty()
        && are_apart(one, two, name)
        && shuts_or_lists(two, name)
        && are_listed(one, two)
}

// Whether each shape of the first kind requires a name and none of the second has it.
fn are_apart(one: &NodeKind, two: &NodeKind, name: &Name) -> bool
    ensures { IsTrue result ↔ AreApart name.now one.now two.now }
{
    all_require(&one.shapes, name) && all_lack(&two.shapes, name)
}

fn all_lack(shapes: &[Shape], name: &Name) -> bool
    ensures { IsTrue result ↔ All (λ b. has_name b name.now ≡ false) shapes.now }
{
    for shape in shapes {
        if has(shape, name) {
            return false;
        }
    }
    true
}

// Whether no shape of a kind lets an unlisted name in, or a name is listed.
fn shuts_or_lists(kind: &NodeKind, name: &Name) -> bool
    requires { IsStrictlySortedBy name_cmp kind.now.names.items }
    ensures { IsTrue result ↔ (All IsShut kind.now.shapes.items ⊎ IsIn kind.now.names.items name.now) }
{
    all_shut(&kind.shapes) || is_in(&kind.names, name)
}

// Whether neither kind lets an unlisted name in, or both list the same names.
fn are_listed(one: &NodeKind, two: &NodeKind) -> bool
    requires one { IsStrictlySortedBy name_cmp one.now.names.items }
    requires two { IsStrictlySortedBy name_cmp two.now.names.items }
    ensures { IsTrue result ↔ (AreShut one.now two.now ⊎ ListAlike one.now two.now) }
{
    are_shut(one, two) || list_alike(one, two)
}

fn are_shut(one: &NodeKind, two: &NodeKind) -> bool
    ensures { IsTrue result ↔ AreShut one.now two.now }
{
    all_shut(&one.shapes) && all_shut(&two.shapes)
}

fn list_alike(one: &NodeKind, two: &NodeKind) -> bool
    requires one { IsStrictlySortedBy name_cmp one.now.names.items }
    requires two { IsStrictlySortedBy name_cmp two.now.names.items }
    ensures { IsTrue result ↔ ListAlike one.now two.now }
{
    are_among(&one.names, &two.names) && are_among(&two.names, &one.names)
}

// Whether each of some names is among others, which rise.
fn are_among(names: &[Name], others: &[Name]) -> bool
    requires { IsStrictlySortedBy name_cmp others.now }
    ensures { IsTrue result ↔ AreAmong names.now others.now }
{
    for name in names {
        if !is_in(others, name) {
            return false;
        }
    }
    true
}

// Whether two nodes agree on where names lead.
fn agree(table: &Table, one: NodeId, two: NodeId) -> bool
    requires one { one.place < length table.now }
    requires two { two.place < length table.now }
    ensures { (n m : NodeValue) → slice_get table.now one.place ≡ Some n → slice_get table.now two.place ≡ Some m → (IsTrue result ↔ NodesAgree table.now n m) }
{
    let _ = table.at(one);
    let _ = table.at(two);
    names_agree(table, one, two) && others_agree(table, other(table, one), other(table, two))
}

// Whether the names that both nodes list lead to the same.
fn names_agree(table: &Table, one: NodeId, two: NodeId) -> bool
    requires one { one.place < length table.now }
    requires two { two.place < length table.now }
    ensures { (n m : NodeValue) → slice_get table.now one.place ≡ Some n → slice_get table.now two.place ≡ Some m → (IsTrue result ↔ ((k : NameValue) → LeadToSame table.now (find name_cmp k n.children) (find name_cmp k m.children))) }
{
    let kind = table.at(one).0;
    let _ = table.at(two);
    for name in &kind.names {
        if !are_alike(table, child(table, one, name), child(table, two, name)) {
            return false;
        }
    }
    true
}

// Whether all other names are of one class and lead to the same, where both nodes have such.
fn others_agree(table: &Table, one: Option<(Class, NodeId)>, two: Option<(Class, NodeId)>) -> bool
    requires one { IfSome one (λ o. o.1.place < length table.now) }
    requires two { IfSome two (λ o. o.1.place < length table.now) }
    ensures { IsTrue result ↔ OthersAgree table.now one two }
{
    match (one, two) {
        (Some(one), Some(two)) => same_class(one.0, two.0) && same(table, one.1, two.1),
        _ => true,
    }
}

fn same_class(one: Class, two: Class) -> bool
    ensures { IsTrue result ↔ (one ≡ two) }
{
    one == two
}

// The first shapes, each with the name made optional where one of the second is the same without it, and those of the second that
// none of the first is the same as. To be quick, shapes are looked for in order.
fn merge_shapes(
    alloc: Global,
    ones: &[Shape],
    twos: &[Shape],
    name: &Name,
) -> Result<Vec<Shape>, Memory>
    ensures { IfOk result (λ v. v.items ≡ merged_shapes name.now ones.now twos.now) }
{
    let mut others = copy_shapes(alloc, twos)?;
    others.sort()?;
    let mut shapes = loosen_all(alloc, ones, &others, name)?;
    let mut bare = unrequiring(alloc, ones, name)?;
    bare.sort()?;
    push_rest(&mut shapes, twos, &bare)?;
    Ok(shapes)
}

// The shapes, each with the name made optional where without it it is among others.
fn loosen_all(
    alloc: Global,
    shapes: &[Shape],
    others: &[Shape],
    name: &Name,
) -> Result<Vec<Shape>, Memory>
    requires { IsSorted shape_cmp others.now }
    ensures { IfOk result (λ v. v.items ≡ map (λ a. cond (list_any (same_shape (unrequired name.now a)) others.now) (loosened name.now a) a) shapes.now) }
{
    let mut all = Vec::new(alloc);
    for shape in shapes {
        all.push(loosen(shape, others, name)?)?;
    }
    Ok(all)
}

fn loosen(shape: &Shape, others: &[Shape], name: &Name) -> Result<Shape, Memory>
    requires { IsSorted shape_cmp others.now }
    ensures { IfOk result (λ a. a ≡ cond (list_any (same_shape (unrequired name.now shape.now)) others.now) (loosened name.now shape.now) shape.now) }
{
    let bare = unrequire(shape, name)?;
    if !is_among(others, &bare) {
        return Ok(shape.copy()?);
    }
    Ok(Shape {
        required: bare.required,
        optional: shape.optional.with(name)?,
        least: shape.least,
        most: shape.most,
    })
}

// Puts copies of the shapes that aren't among others behind shapes.
fn push_rest(shapes: &mut Vec<Shape>, more: &[Shape], others: &[Shape]) -> Result<(), Memory>
    requires { IsSorted shape_cmp others.now }
    ensures { OnOk result (shapes.new.items ≡ shapes.old.items ++ filter (λ b. not (list_any (same_shape b) others.now)) more.now) }
{
    for shape in more {
        if !is_among(others, shape) {
            shapes.push(shape.copy()?)?;
        }
    }
    Ok(())
}

// Whether a shape is among shapes that are in order.
fn is_among(others: &[Shape], shape: &Shape) -> bool
    requires { IsSorted shape_cmp others.now }
    ensures { result ≡ list_any (same_shape shape.now) others.now }
{
    others.binary_search(shape).is_ok()
}
