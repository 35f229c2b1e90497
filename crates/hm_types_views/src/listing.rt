//! The view of a lens on the items of a list.
ghost use Rattle.std.specs.Prelude.{◌≡◌, ◌↔◌, ◌<◌, ◌∷◌, [], cond, Bool, IsTrue, IfOk, IfSome, MatchOption, All, Any, Some, length, slice_get};
ghost use Rattle.std.specs.FinMap.{find};
ghost use Rattle.std.specs.FinSet.{from_list};
ghost use Rattle.hm_tree.specs.Names.{name_cmp};
ghost use Rattle.hm_schema.specs.Values.{NodeValue};
ghost use Rattle.hm_tree_parts.specs.Lists.{head, tail};
ghost use Rattle.hm_schema_lists.specs.ListNodes.{item_names, empty_shape, item_shape};
ghost use Rattle.hm_schema_lists.specs.Plain.{exact_shape};
ghost use Rattle.hm_types_forms.specs.Forms.{Form, form};
ghost use Rattle.hm_types_rules.specs.Typing.{IsList, IsItems, BeginsWith, list_shapes, list_form, items_form};
ghost use Rattle.hm_types_table.specs.Tables.{AreFormed, Extends};
ghost use Rattle.hm_types_views.specs.Lists.{IsListOf, IsNoList, IsListKind, IsItemKind, IsPart};

use hm_schema::{NodeId, Shape};
use hm_tree::{Memory, Name, NameSet};
use hm_types_table::{NodeKind, Table, child, is_bare, is_shut, same};
use std::alloc::Global;

/// What the items of a list are typed at, whether the shape of an empty list comes first, and whether there always is an item.
#[derive(Clone, Copy)]
pub struct Items {
    pub first: NodeId,
    pub empty_first: bool,
    pub some: bool,
}

/// What a node says of the items of lists, where it is that of lists or of lists with an item at least.
pub fn items_of(table: &Table, id: NodeId) -> Option<Items>
    requires { id.place < length table.now }
    ensures in_range { IfSome result (λ i. i.first.place < length table.now) }
    ensures list { MatchOption result (IsNoList (form table.now id)) (λ i. IsListOf i.some (form table.now id) (form table.now i.first) i.empty_first) }
{
    match list_at(table, id) {
        Some((first, empty_first)) => Some(Items {
            first,
            empty_first,
            some: false,
        }),
        None => {
            let (first, empty_first) = some_at(table, id)?;
            Some(Items {
                first,
                empty_first,
                some: true,
            })
        }
    }
}

// The items of lists, and whether the shape of an empty list comes first.
fn list_at(table: &Table, id: NodeId) -> Option<(NodeId, bool)>
    requires { id.place < length table.now }
    ensures in_range { IfSome result (λ p. p.0.place < length table.now) }
    ensures list { MatchOption result ((x : Form) (b : Bool) → ¬ (IsList (form table.now id) x b)) (λ p. IsList (form table.now id) (form table.now p.0) p.1) }
{
    let kind = table.at(id).0;
    if !is_list(kind) {
        return None;
    }
    let (first, rest) = parts_at(table, id)?;
    if !same(table, rest, id) {
        return None;
    }
    Some((first, begins_empty(&kind.shapes)))
}

// The same of lists with an item at least.
fn some_at(table: &Table, id: NodeId) -> Option<(NodeId, bool)>
    requires { id.place < length table.now }
    ensures in_range { IfSome result (λ p. p.0.place < length table.now) }
    ensures items { MatchOption result ((x : Form) (b : Bool) → ¬ (IsItems (form table.now id) x b)) (λ p. IsItems (form table.now id) (form table.now p.0) p.1) }
{
    let kind = table.at(id).0;
    if !has_items(kind) {
        return None;
    }
    let (first, rest) = parts_at(table, id)?;
    let (item, empty_first) = list_at(table, rest)?;
    if !same(table, item, first) {
        return None;
    }
    Some((first, empty_first))
}

// What an item and the rest of a list lead to, where some shape is that of an item.
fn parts_at(table: &Table, id: NodeId) -> Option<(NodeId, NodeId)>
    requires { id.place < length table.now }
    ensures in_range { IfSome result (λ p. (p.0.place < length table.now) × (p.1.place < length table.now)) }
    ensures item { (n : NodeValue) → slice_get table.now id.place ≡ Some n → MatchOption result (¬ (Any (λ a. a ≡ item_shape) n.shapes)) (λ p. Any (λ a. a ≡ item_shape) n.shapes) }
    ensures first { (n : NodeValue) → slice_get table.now id.place ≡ Some n → IfSome result (λ p. find name_cmp head n.children ≡ Some p.0) }
    ensures rest { (n : NodeValue) → slice_get table.now id.place ≡ Some n → IfSome result (λ p. find name_cmp tail n.children ≡ Some p.1) }
{
    let kind = table.at(id).0;
    let names = item_in(&kind.shapes)?;
    let first = child(table, id, &names[0])?;
    let rest = child(table, id, &names[1])?;
    Some((first, rest))
}

// The two names of the shape of an item, where it is there.
fn item_in(shapes: &[Shape]) -> Option<&[Name]>
    ensures there { MatchOption result (¬ (Any (λ a. a ≡ item_shape) shapes.now)) (λ names. Any (λ a. a ≡ item_shape) shapes.now) }
    ensures names { IfSome result (λ names. names.now ≡ head ∷ tail ∷ []) }
{
    for shape in shapes {
        if is_item(shape) {
            return Some(shape.required.names());
        }
    }
    None
}

// Whether the shapes of a kind are those of a list.
fn is_list(kind: &NodeKind) -> bool
    ensures { IsTrue result ↔ IsListKind kind.now }
{
    kind.twins.is_empty() && all_parts(&kind.shapes) && has_empty(&kind.shapes)
}

// Whether they are those of a list with an item at least.
fn has_items(kind: &NodeKind) -> bool
    ensures { IsTrue result ↔ IsItemKind kind.now }
{
    kind.twins.is_empty() && all_items(&kind.shapes)
}

fn all_parts(shapes: &[Shape]) -> bool
    ensures { IsTrue result ↔ All IsPart shapes.now }
{
    for shape in shapes {
        if !is_part(shape) {
            return false;
        }
    }
    true
}

fn all_items(shapes: &[Shape]) -> bool
    ensures { IsTrue result ↔ All (λ a. a ≡ item_shape) shapes.now }
{
    for shape in shapes {
        if !is_item(shape) {
            return false;
        }
    }
    true
}

fn has_empty(shapes: &[Shape]) -> bool
    ensures { IsTrue result ↔ Any (λ a. a ≡ empty_shape) shapes.now }
{
    for shape in shapes {
        if is_empty(shape) {
            return true;
        }
    }
    false
}

// Whether the shape of an empty list comes first.
fn begins_empty(shapes: &[Shape]) -> bool
    requires some { 0 < length shapes.now }
    requires parts { All IsPart shapes.now }
    ensures { BeginsWith shapes.now result }
{
    is_empty(&shapes[0])
}

fn is_part(shape: &Shape) -> bool
    ensures { IsTrue result ↔ IsPart shape.now }
{
    is_empty(shape) || is_item(shape)
}

fn is_empty(shape: &Shape) -> bool
    ensures { IsTrue result ↔ (shape.now ≡ empty_shape) }
{
    is_bare(&shape.required) && is_bare(&shape.optional) && shape.least == 0 && is_shut(shape)
}

fn is_item(shape: &Shape) -> bool
    ensures { IsTrue result ↔ (shape.now ≡ item_shape) }
{
    are_parts(&shape.required) && is_bare(&shape.optional) && shape.least == 0 && is_shut(shape)
}

// Whether names are those of an item and the rest of a list.
fn are_parts(names: &NameSet) -> bool
    ensures { IsTrue result ↔ (names.now ≡ item_names) }
{
    let names = names.names();
    if names.len() != 2 {
        return false;
    }
    is_text(&names[0], "*h") && is_text(&names[1], "*t")
}

fn is_text(name: &Name, text: &str) -> bool
    ensures { IsTrue result ↔ (name.now ≡ text.now) }
{
    name.text() == text
}

/// Adds the node of lists of what a node stands for, of the order and the kind of other lists.
pub fn list_of(
    alloc: Global,
    table: &mut Table,
    items: &Items,
    view: NodeId,
) -> Result<NodeId, Memory>
    requires { view.place < length table.old }
    ensures extends { Extends table.old table.new }
    ensures formed { AreFormed table.new }
    ensures in_range { IfOk result (λ j. j.place < length table.new) }
    ensures list { IfOk result (λ j. form table.new j ≡ cond items.now.some (items_form items.now.empty_first (form table.old view)) (list_form items.now.empty_first (form table.old view))) }
{
    let _ = table.at(view);
    let shapes = both_shapes(alloc, items.empty_first)?;
    let list = table.add_loop(list_kind(alloc, shapes)?, view)?;
    if !items.some {
        return Ok(list);
    }
    let shapes = vec![in alloc; item(alloc)?]?;
    let next = vec![in alloc; view, list]?;
    Ok(table.add(list_kind(alloc, shapes)?, next, None)?)
}

// A kind with the names of an item and the rest of a list.
fn list_kind(alloc: Global, shapes: Vec<Shape>) -> Result<NodeKind, Memory>
    ensures shapes { IfOk result (λ k. k.shapes.items ≡ shapes.items) }
    ensures names { IfOk result (λ k. k.names.items ≡ head ∷ tail ∷ []) }
    ensures twins { IfOk result (λ k. k.twins.items ≡ []) }
{
    Ok(NodeKind {
        shapes,
        names: both_names(alloc)?,
        twins: Vec::new(alloc),
    })
}

// The shapes of a list.
fn both_shapes(alloc: Global, empty_first: bool) -> Result<Vec<Shape>, Memory>
    ensures { IfOk result (λ v. v.items ≡ list_shapes empty_first) }
{
    let mut shapes = Vec::new(alloc);
    if empty_first {
        shapes.push(closed(alloc, Vec::new(alloc))?)?;
        shapes.push(item(alloc)?)?;
    } else {
        shapes.push(item(alloc)?)?;
        shapes.push(closed(alloc, Vec::new(alloc))?)?;
    }
    Ok(shapes)
}

// The shape of an item and the rest of a list.
fn item(alloc: Global) -> Result<Shape, Memory>
    ensures { IfOk result (λ a. a ≡ item_shape) }
{
    Ok(closed(alloc, both_names(alloc)?)?)
}

fn both_names(alloc: Global) -> Result<Vec<Name>, Memory>
    ensures { IfOk result (λ v. v.items ≡ head ∷ tail ∷ []) }
{
    let head = Name::from_text(alloc, "*h")?;
    let tail = Name::from_text(alloc, "*t")?;
    Ok(vec![in alloc; head, tail]?)
}

/// The shape of just these names.
pub fn closed(alloc: Global, names: Vec<Name>) -> Result<Shape, Memory>
    ensures { IfOk result (λ a. a ≡ exact_shape (from_list names.items)) }
{
    Ok(Shape {
        required: NameSet::from_list(names)?,
        optional: NameSet::from_list(Vec::new(alloc))?,
        least: 0,
        most: Some(0),
    })
}
