//! What nodes are like when they are tidied.
ghost use Rattle.std.specs.Prelude.{◌≡◌, ◌<◌, ◌||◌, Bool, Some, None, cond, length, slice_get, IfOk, map};
ghost use Rattle.std.specs.Option.{option_map};
ghost use Rattle.std.specs.List.{list_any};
ghost use Rattle.hm_schema.specs.Values.{node_value};
ghost use Rattle.hm_schema.specs.Tidied.{tidied, has_name};
ghost use Rattle.hm_schema.specs.Numbering.{IsNumbering, KeepsNumbers};
ghost use Rattle.hm_schema.specs.Labels.{label_cmp};
ghost use Rattle.hm_types_forms.specs.Forms.{label_of};
ghost use Rattle.hm_types_table.specs.Tables.{keys};
ghost use Rattle.hm_types_table.specs.Classes.{IsOutline, kind_label, left};

use crate::kind::NodeKind;
use crate::shapes::some_lets_in;
use hm_schema::{Label, Node, NodeId, copy_pairs, copy_shapes, label_of, names_in_shapes, number};
use hm_tree::{Class, Memory, Name};
use std::alloc::Global;
use std::collections::BTreeMap;

/// What nodes of a kind with one class of all other names are like when they are tidied, apart from where their edges
/// lead. Many nodes may share one.
#[derive(Drop)]
pub struct Outline {
    /// The number of their label.
    pub label: u64,
    /// Whether a shape lets unlisted names in.
    pub lets_in: bool,
    /// Whether a shape has the name, for each of the listed names.
    pub standing: Vec<bool>,
}

/// The outline of nodes of a kind with a class of all other names.
pub fn outline_of(
    kind: &NodeKind,
    class: Option<Class>,
    numbers: &mut BTreeMap<Label, u64>,
) -> Result<Outline, Memory>
    requires { IsNumbering label_cmp numbers.old }
    ensures outline { IfOk result (IsOutline numbers.new (kind_label kind.now class)) }
    ensures stays { KeepsNumbers label_cmp numbers.old numbers.new }
    ensures numbering { IsNumbering label_cmp numbers.new }
{
    let alloc = *kind.names.allocator();
    let standing = standing(alloc, kind)?;
    let node = left_of(alloc, kind, class, &standing)?;
    let label = number(numbers, label_of(alloc, node)?)?;
    Ok(Outline {
        label,
        lets_in: some_lets_in(&kind.shapes),
        standing,
    })
}

// Whether a shape has the name, for each of the listed names.
fn standing(alloc: Global, kind: &NodeKind) -> Result<Vec<bool>, Memory>
    ensures { IfOk result (λ v. v.items ≡ map (λ k. list_any (λ a. has_name a k) kind.now.shapes.items) kind.now.names.items) }
{
    let names = names_in_shapes(alloc, &kind.shapes)?;
    let mut standing = Vec::with_capacity(alloc, kind.names.len())?;
    for name in &kind.names {
        standing.push(names.has(name))?;
    }
    Ok(standing)
}

// A node of a kind, tidied, whose edges all lead to one place.
fn left_of(
    alloc: Global,
    kind: &NodeKind,
    class: Option<Class>,
    standing: &[bool],
) -> Result<Node, Memory>
    requires { standing.now ≡ map (λ k. list_any (λ a. has_name a k) kind.now.shapes.items) kind.now.names.items }
    ensures { IfOk result (λ node. label_of (node_value node) ≡ tidied (kind_label kind.now class)) }
{
    let lets_in = some_lets_in(&kind.shapes);
    Ok(Node {
        shapes: copy_shapes(alloc, &kind.shapes)?,
        children: children_left(alloc, lets_in, standing, &kind.names)?,
        other: other_left(lets_in, class),
        twins: copy_pairs(alloc, &kind.twins)?,
    })
}

fn children_left(
    alloc: Global,
    all: bool,
    standing: &[bool],
    names: &[Name],
) -> Result<Vec<(Name, NodeId)>, Memory>
    requires { length standing.now ≡ length names.now }
    ensures { IfOk result (λ v. keys v.items ≡ left all standing.now names.now) }
{
    let mut children = Vec::new(alloc);
    for place in 0..names.len() {
        if is_left(all, standing, place) {
            children.push((names[place].copy()?, NodeId { place: 0 }))?;
        }
    }
    Ok(children)
}

fn other_left(all: bool, class: Option<Class>) -> Option<(Class, NodeId)>
    ensures { option_map (λ o. o.0) result ≡ cond all class None }
{
    match class {
        Some(class) if all => Some((class, NodeId { place: 0 })),
        _ => None,
    }
}

/// Whether what is at a place is left, where all are or what stands.
pub fn is_left(all: bool, standing: &[bool], place: usize) -> bool
    requires { place < length standing.now }
    ensures { (b : Bool) → slice_get standing.now place ≡ Some b → result ≡ (all || b) }
{
    all || standing[place]
}
