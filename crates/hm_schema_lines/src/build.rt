//! The nodes that the lines of a file describe.
ghost use Rattle.std.specs.Prelude.{Some, ◌≡◌, ◌≢◌, ◌↔◌, IsTrue, IfOk, MatchOption, map, length, codes, count_by, filter_map, option_copied};
ghost use Rattle.std.specs.List.{Contains};
ghost use Rattle.hm_tree.specs.Names.{Name};
ghost use Rattle.hm_tree.specs.declared.class.Class.{Class};
ghost use Rattle.hm_schema.specs.Values.{node_value};
ghost use Rattle.hm_schema_lines.specs.NodeLines.{other, shape_value, node_line_value};
ghost use Rattle.hm_schema_lines.specs.Entries.{entry_value, entry_values, says};
ghost use Rattle.hm_schema_lines.specs.Firsts.{AreFirsts, node_names};
ghost use Rattle.hm_schema_lines.specs.BadLines.{IsBadNodeLine, IsNode, begins_node, named};
ghost use Rattle.hm_schema_lines.specs.Nodes.{IsPlaceOf, AreNodesOf, named_by, NamesEmpty, as_shape, empty_node};
ghost use Rattle.hm_schema_lines.specs.FirstBad.{HasNoBad};
ghost use Rattle.hm_schema_lines.specs.Building.{id_in, shape_of, child_of, IsOtherOf, IsBuilt, AreBuilt};

use crate::entry::Entry;
use crate::firsts::first_place;
use crate::judge::is_empty_node;
use crate::node_line::{NodeLine, ShapeLine};
use crate::section::{begins_node, count_nodes, lines_of_node};
use hm_schema::{Node, NodeId, Shape, copy_names};
use hm_tree::{Class, Memory, Name, NameSet};
use indexmap::IndexMap;
use std::alloc::Global;
use std::string::String;

// The node of a name: behind the declared ones for `Empty`.
fn node_named(declared: &IndexMap<String, usize>, count: usize, name: &Name) -> NodeId
    ensures { result ≡ id_in declared.now count name.now }
{
    match first_place(declared, name) {
        Some(place) => NodeId { place },
        None => NodeId { place: count },
    }
}

fn build_shape(alloc: Global, shape: &ShapeLine) -> Result<Shape, Memory>
    ensures { IfOk result (λ built. built ≡ as_shape (shape_value shape.now)) }
{
    Ok(Shape {
        required: NameSet::from_list(copy_names(alloc, &shape.required)?)?,
        optional: NameSet::from_list(copy_names(alloc, &shape.optional)?)?,
        least: shape.count.least,
        most: shape.count.most,
    })
}

// The shape that a line adds to its node.
fn shape_of(alloc: Global, entry: &Entry) -> Result<Option<Shape>, Memory>
    ensures { IfOk result (λ shape. shape ≡ shape_of (entry_value entry.now)) }
{
    match entry.node_line() {
        Some(NodeLine::Shape(shape)) => Ok(Some(build_shape(alloc, shape)?)),
        _ => Ok(None),
    }
}

// The name that a line lists, and its node.
fn child_of(
    entry: &Entry,
    declared: &IndexMap<String, usize>,
    count: usize,
) -> Result<Option<(Name, NodeId)>, Memory>
    ensures { IfOk result (λ child. child ≡ child_of (id_in declared.now count) (entry_value entry.now)) }
{
    match entry.node_line() {
        Some(NodeLine::Edge(name, node)) => Ok(Some((
            name.copy()?,
            node_named(declared, count, node),
        ))),
        _ => Ok(None),
    }
}

// What a line says of unlisted names: their class, and their node.
fn other_of(
    entry: &Entry,
    declared: &IndexMap<String, usize>,
    count: usize,
) -> Option<(Class, NodeId)>
    ensures { MatchOption result ((c : Class) (w : Name) → entry_value entry.now ≢ says (other c w)) (λ o. (w : Name) × (entry_value entry.now ≡ says (other o.0 w)) × (o.1 ≡ id_in declared.now count w)) }
{
    match entry.node_line() {
        Some(NodeLine::Other(class, node)) => { Some((*class, node_named(declared, count, node))) }
        _ => None,
    }
}

fn shapes_of(alloc: Global, lines: &[Entry]) -> Result<Vec<Shape>, Memory>
    ensures { IfOk result (λ shapes. shapes.items ≡ filter_map shape_of (entry_values lines.now)) }
{
    let mut shapes = Vec::new(alloc);
    for entry in lines {
        if let Some(shape) = shape_of(alloc, entry)? {
            shapes.push(shape)?;
        }
    }
    Ok(shapes)
}

fn children_of(
    alloc: Global,
    lines: &[Entry],
    declared: &IndexMap<String, usize>,
    count: usize,
) -> Result<Vec<(Name, NodeId)>, Memory>
    ensures { IfOk result (λ children. children.items ≡ filter_map (child_of (id_in declared.now count)) (entry_values lines.now)) }
{
    let mut children = Vec::new(alloc);
    for entry in lines {
        if let Some(child) = child_of(entry, declared, count)? {
            children.push(child)?;
        }
    }
    Ok(children)
}

fn first_other(
    lines: &[Entry],
    declared: &IndexMap<String, usize>,
    count: usize,
) -> Option<(Class, NodeId)>
    ensures { IsOtherOf (id_in declared.now count) (entry_values lines.now) result }
{
    for entry in lines {
        if let Some(other) = other_of(entry, declared, count) {
            return Some(other);
        }
    }
    None
}

// The node of some lines.
fn build_node(
    alloc: Global,
    lines: &[Entry],
    declared: &IndexMap<String, usize>,
    count: usize,
) -> Result<Node, Memory>
    ensures { IfOk result (λ node. IsBuilt (id_in declared.now count) (entry_values lines.now) (node_value node)) }
{
    let shapes = shapes_of(alloc, lines)?;
    let mut children = children_of(alloc, lines, declared, count)?;
    children.sort_by(|one, two| one.0.order(&two.0))?;
    Ok(Node {
        shapes,
        children,
        other: first_other(lines, declared, count),
        twins: Vec::new(alloc),
    })
}

// The nodes of the node lines.
fn build_declared(
    alloc: Global,
    entries: &[Entry],
    declared: &IndexMap<String, usize>,
) -> Result<Vec<Node>, Memory>
    ensures { IfOk result (λ nodes. AreBuilt (id_in declared.now (count_by begins_node (entry_values entries.now))) (entry_values entries.now) (length entries.now) (map node_value nodes.items)) }
{
    let count = count_nodes(entries);
    let mut nodes = Vec::new(alloc);
    for place in 0..entries.len() {
        if begins_node(&entries[place]) {
            let lines = lines_of_node(&entries[place + 1..]);
            nodes.push(build_node(alloc, lines, declared, count)?)?;
        }
    }
    Ok(nodes)
}

// The node whose one shape is empty.
fn empty_node(alloc: Global) -> Result<Node, Memory>
    ensures { IfOk result (λ node. node_value node ≡ empty_node) }
{
    let mut shapes = Vec::new(alloc);
    shapes.push(Shape {
        required: NameSet::from_list(Vec::new(alloc))?,
        optional: NameSet::from_list(Vec::new(alloc))?,
        least: 0,
        most: Some(0),
    })?;
    Ok(Node {
        shapes,
        children: Vec::new(alloc),
        other: None,
        twins: Vec::new(alloc),
    })
}

// The name of the node that a line names.
fn named(line: &NodeLine) -> Option<&Name>
    ensures { option_copied result ≡ named (node_line_value line.now) }
{
    match line {
        NodeLine::Edge(_, name) => Some(name),
        NodeLine::Other(_, name) => Some(name),
        _ => None,
    }
}

fn names_empty_node(entry: &Entry) -> bool
    ensures { IsTrue result ↔ (named_by (entry_value entry.now) ≡ Some (codes "Empty")) }
{
    let Some(line) = entry.node_line() else {
        return false;
    };
    match named(line) {
        Some(name) => is_empty_node(name),
        None => false,
    }
}

fn is_named_by_lines(entries: &[Entry]) -> bool
    ensures { IsTrue result ↔ Contains (filter_map named_by (entry_values entries.now)) (codes "Empty") }
{
    entries.iter().any(|entry| names_empty_node(entry))
}

fn is_among(own: &[Name]) -> bool
    ensures { IsTrue result ↔ Contains own.now (codes "Empty") }
{
    own.iter().any(|name| is_empty_node(name))
}

/// Whether the node whose one shape is empty is named, by a line of a node or among the names that the file's own lines have.
pub fn is_empty_named(entries: &[Entry], own: &[Name]) -> bool
    ensures { IsTrue result ↔ NamesEmpty (entry_values entries.now) own.now }
{
    if is_among(own) {
        return true;
    }
    is_named_by_lines(entries)
}

/// The nodes, in the order of their lines, and behind them the node `Empty` where it is named, by a line of a node or
/// among the names that the file's own lines have.
pub fn build_nodes(
    alloc: Global,
    entries: &[Entry],
    declared: &IndexMap<String, usize>,
    own: &[Name],
) -> Result<Vec<Node>, Memory>
    requires sound { HasNoBad (IsBadNodeLine (entry_values entries.now)) }
    requires declared { AreFirsts declared.now (node_names (entry_values entries.now)) }
    ensures { IfOk result (λ nodes. AreNodesOf (entry_values entries.now) own.now (map node_value nodes.items)) }
{
    let mut nodes = build_declared(alloc, entries, declared)?;
    if is_empty_named(entries, own) {
        nodes.push(empty_node(alloc)?)?;
    }
    Ok(nodes)
}

/// The node that a line of the file's own names.
pub fn node_of(entries: &[Entry], declared: &IndexMap<String, usize>, name: &Name) -> NodeId
    requires declared { AreFirsts declared.now (node_names (entry_values entries.now)) }
    requires node { IsNode (entry_values entries.now) name.now }
    ensures { IsPlaceOf (entry_values entries.now) name.now result.place }
{
    match first_place(declared, name) {
        Some(place) => NodeId { place },
        // The node lines are counted only here: most names are declared.
        None => NodeId {
            place: count_nodes(entries),
        },
    }
}
