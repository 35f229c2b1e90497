//! Which lines of nodes are bad.
ghost use Rattle.std.specs.Prelude.{◌≡◌, ◌↔◌, ◌<◌, suc, IsTrue, IfOk, codes};
ghost use Rattle.hm_tree.specs.Names.{Name};
ghost use Rattle.hm_schema_lines.specs.NodeLines.{node, edge, other, shape, shape_value, node_line_value};
ghost use Rattle.hm_schema_lines.specs.Entries.{entry_values};
ghost use Rattle.hm_schema_lines.specs.Firsts.{AreFirsts, node_names};
ghost use Rattle.hm_schema_lines.specs.BadLines.{Says, Lists, IsNode, around, HasDouble, IsNoneCounted, names_of_shape, IsBadNodeLine};
ghost use Rattle.hm_schema_lines.specs.Judging.{IsKnown, lines_of, IsTurned, HasUnlisted, MayCount};

use crate::before::Before;
use crate::count::Count;
use crate::entry::Entry;
use crate::firsts::{Naming, first_place, first_places, is_first, keep_first};
use crate::node_line::{NodeLine, ShapeLine};
use crate::section::Section;
use hm_schema::{append_copies, copy_names};
use hm_tree::{Class, Memory, Name};
use indexmap::IndexMap;
use std::alloc::Global;
use std::string::String;

const MOST_NODES: usize = 1000;

const MOST_SHAPES: usize = 256;

/// Whether a name is that of the node whose one shape is empty.
pub fn is_empty_node(name: &Name) -> bool
    ensures { IsTrue result ↔ (name.now ≡ codes "Empty") }
{
    name.bytes() == b"Empty".as_slice()
}

/// The places, among the node lines, of the first line of each declared name.
pub fn declared_nodes(alloc: Global, entries: &[Entry]) -> Result<IndexMap<String, usize>, Memory>
    ensures { IfOk result (λ declared. AreFirsts declared (node_names (entry_values entries.now))) }
{
    first_places(alloc, Naming::Nodes, entries)
}

/// Whether a name is there twice.
pub fn has_double(alloc: Global, names: &[Name]) -> Result<bool, Memory>
    ensures { IfOk result (λ found. IsTrue found ↔ HasDouble names.now) }
{
    let mut firsts = IndexMap::new(alloc);
    for place in 0..names.len() {
        if first_place(&firsts, &names[place]).is_some() {
            return Ok(true);
        }
        keep_first(alloc, &mut firsts, &names[place], place)?;
    }
    Ok(false)
}

// The required names of a shape, and the optional ones.
fn names_of(alloc: Global, shape: &ShapeLine) -> Result<Vec<Name>, Memory>
    ensures { IfOk result (λ names. names.items ≡ names_of_shape (shape_value shape.now)) }
{
    let mut names = copy_names(alloc, &shape.required)?;
    append_copies(&mut names, &shape.optional)?;
    Ok(names)
}

fn is_none_counted(count: Count) -> bool
    ensures { IsTrue result ↔ IsNoneCounted count }
{
    count.least == 0 && count.most == Some(0)
}

// Whether the least is greater than the most.
fn is_turned(count: Count) -> bool
    ensures { IsTrue result ↔ IsTurned count }
{
    match count.most {
        Some(most) => count.least > most,
        None => false,
    }
}

/// A line at its place in the file, with what is known of the other lines.
#[derive(Clone, Copy, Drop)]
pub struct Line<'a> {
    pub entries: &'a [Entry],
    pub place: usize,
    pub before: Before,
    /// The places of the nodes' names.
    pub declared: &'a IndexMap<String, usize>,
    /// What its node holds; where it begins one, that one.
    pub section: &'a Section,
}

/// Whether a node may be named.
pub fn is_node(line: &Line<'_>, name: &Name) -> bool
    requires { IsKnown line.now }
    ensures { IsTrue result ↔ IsNode (lines_of line.now) name.now }
{
    if is_empty_node(name) {
        return true;
    }
    first_place(line.declared, name).is_some()
}

// Whether a name is listed in the line's node.
fn is_listed(line: &Line<'_>, name: &Name) -> bool
    requires { IsKnown line.now }
    ensures { IsTrue result ↔ Lists (around (lines_of line.now) (suc line.now.place)) name.now }
{
    first_place(&line.section.listed, name).is_some()
}

// Whether a name isn't listed in the line's node.
fn has_unlisted(line: &Line<'_>, names: &[Name]) -> bool
    requires { IsKnown line.now }
    ensures { IsTrue result ↔ HasUnlisted (lines_of line.now) line.now.place names.now }
{
    for name in names {
        if !is_listed(line, name) {
            return true;
        }
    }
    false
}

// Whether unlisted names may be counted so.
fn may_count(line: &Line<'_>, count: Count) -> bool
    requires { IsKnown line.now }
    ensures { IsTrue result ↔ MayCount (lines_of line.now) line.now.place count }
{
    if is_none_counted(count) {
        return true;
    }
    line.section.others != 0
}

fn is_bad_node(line: &Line<'_>, name: &Name) -> bool
    requires known { IsKnown line.now }
    requires says { Says (lines_of line.now) line.now.place (node name.now) }
    ensures { IsTrue result ↔ IsBadNodeLine (lines_of line.now) line.now.place }
{
    if line.before.nodes >= MOST_NODES {
        return true;
    }
    if is_empty_node(name) {
        return true;
    }
    if line.section.shapes == 0 {
        return true;
    }
    !is_first(line.declared, name, line.before.nodes)
}

fn is_bad_edge(line: &Line<'_>, name: &Name, child: &Name) -> bool
    requires known { IsKnown line.now }
    requires says { Says (lines_of line.now) line.now.place (edge name.now child.now) }
    ensures { IsTrue result ↔ IsBadNodeLine (lines_of line.now) line.now.place }
{
    if line.before.nodes == 0 {
        return true;
    }
    if !is_node(line, child) {
        return true;
    }
    !is_first(&line.section.listed, name, line.before.edges)
}

fn is_bad_other(line: &Line<'_>, class: Class, child: &Name) -> bool
    requires known { IsKnown line.now }
    requires says { Says (lines_of line.now) line.now.place (other class child.now) }
    ensures { IsTrue result ↔ IsBadNodeLine (lines_of line.now) line.now.place }
{
    if line.before.nodes == 0 {
        return true;
    }
    if !is_node(line, child) {
        return true;
    }
    line.before.others != 0
}

fn is_bad_shape(alloc: Global, line: &Line<'_>, parts: &ShapeLine) -> Result<bool, Memory>
    requires known { IsKnown line.now }
    requires says { Says (lines_of line.now) line.now.place (shape (shape_value parts.now)) }
    ensures { IfOk result (λ bad. IsTrue bad ↔ IsBadNodeLine (lines_of line.now) line.now.place) }
{
    if line.before.nodes == 0 {
        return Ok(true);
    }
    if line.before.shapes >= MOST_SHAPES {
        return Ok(true);
    }
    if is_turned(parts.count) {
        return Ok(true);
    }
    if !may_count(line, parts.count) {
        return Ok(true);
    }
    let names = names_of(alloc, parts)?;
    if has_unlisted(line, &names) {
        return Ok(true);
    }
    has_double(alloc, &names)
}

/// Whether a line of a node is bad.
pub fn is_bad_line(alloc: Global, line: &Line<'_>, says: &NodeLine) -> Result<bool, Memory>
    requires known { IsKnown line.now }
    requires says { Says (lines_of line.now) line.now.place (node_line_value says.now) }
    ensures { IfOk result (λ bad. IsTrue bad ↔ IsBadNodeLine (lines_of line.now) line.now.place) }
{
    match says {
        NodeLine::Node(name) => Ok(is_bad_node(line, name)),
        NodeLine::Edge(name, child) => Ok(is_bad_edge(line, name, child)),
        NodeLine::Other(class, child) => Ok(is_bad_other(line, *class, child)),
        NodeLine::Shape(shape) => is_bad_shape(alloc, line, shape),
    }
}
