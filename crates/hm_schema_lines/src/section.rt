//! What the lines of a node hold.
ghost use Rattle.std.specs.Prelude.{◌≡◌, ◌<◌, suc, not, length, count_by, IfOk};
ghost use Rattle.std.specs.List.{prefix_len};
ghost use Rattle.hm_schema_lines.specs.Entries.{entry_value, entry_values};
ghost use Rattle.hm_schema_lines.specs.BadLines.{begins_node, up_to_node, around, is_shape};
ghost use Rattle.hm_schema_lines.specs.Sections.{speaks_of_others, IsSection};

use crate::entry::Entry;
use crate::firsts::{Naming, first_places};
use crate::node_line::NodeLine;
use hm_tree::Memory;
use indexmap::IndexMap;
use std::alloc::Global;
use std::string::String;

/// What the lines of a node hold.
#[derive(Drop)]
pub struct Section {
    /// The first place of each name among the listed ones.
    pub listed: IndexMap<String, usize>,
    /// How many lines speak of unlisted names.
    pub others: usize,
    pub shapes: usize,
}

/// Whether a line begins a node.
pub fn begins_node(entry: &Entry) -> bool
    ensures { result ≡ begins_node (entry_value entry.now) }
{
    matches!(entry.node_line(), Some(NodeLine::Node(_)))
}

/// How many lines begin a node.
pub fn count_nodes(entries: &[Entry]) -> usize
    ensures { result ≡ count_by begins_node (entry_values entries.now) }
{
    entries.iter().filter(|entry| begins_node(entry)).count()
}

// How many lines there are up to the next that begins a node.
fn length_of_node(entries: &[Entry]) -> usize
    ensures { result ≡ prefix_len (λ e. not (begins_node (entry_value e))) entries.now }
{
    let mut length = 0;
    while length < entries.len() && !begins_node(&entries[length]) {
        length += 1;
    }
    length
}

/// The lines up to the next that begins a node.
pub fn lines_of_node(entries: &[Entry]) -> &[Entry]
    ensures { entry_values result.now ≡ up_to_node (entry_values entries.now) }
{
    &entries[..length_of_node(entries)]
}

/// Whether a line speaks of unlisted names.
pub fn speaks_of_others(entry: &Entry) -> bool
    ensures { result ≡ speaks_of_others (entry_value entry.now) }
{
    matches!(entry.node_line(), Some(NodeLine::Other(_, _)))
}

/// Whether a line is a shape.
pub fn is_shape(entry: &Entry) -> bool
    ensures { result ≡ is_shape (entry_value entry.now) }
{
    matches!(entry.node_line(), Some(NodeLine::Shape(_)))
}

/// What the lines hold up to the next that begins a node.
pub fn read_section(alloc: Global, entries: &[Entry]) -> Result<Section, Memory>
    ensures { IfOk result (IsSection (up_to_node (entry_values entries.now))) }
{
    let lines = lines_of_node(entries);
    Ok(Section {
        listed: first_places(alloc, Naming::Edges, lines)?,
        others: lines.iter().filter(|line| speaks_of_others(line)).count(),
        shapes: lines.iter().filter(|line| is_shape(line)).count(),
    })
}

/// What the node of a line holds, by that of the line before; where it begins one, that one.
pub fn section_at(
    alloc: Global,
    entries: &[Entry],
    place: usize,
    before: Section,
) -> Result<Section, Memory>
    requires place { place < length entries.now }
    requires before { IsSection (around (entry_values entries.now) place) before }
    ensures { IfOk result (IsSection (around (entry_values entries.now) (suc place))) }
{
    if begins_node(&entries[place]) {
        return read_section(alloc, &entries[place + 1..]);
    }
    Ok(before)
}
