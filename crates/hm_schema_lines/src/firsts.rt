//! The first place of each name.
ghost use Rattle.std.specs.Prelude.{◌≡◌, ◌↔◌, IsTrue, List, ℕ, Some, IfOk, OnOk, option_copied};
ghost use Rattle.indexmap.specs.IndexMap.{get_by_text};
ghost use Rattle.hm_schema_lines.specs.Entries.{entry_value, entry_values};
ghost use Rattle.hm_schema_lines.specs.Firsts.{kept_first, begun_name, listed_name, name_by, names_by, AreFirsts};

use crate::entry::Entry;
use crate::node_line::NodeLine;
use hm_tree::{Memory, Name};
use indexmap::IndexMap;
use std::alloc::Global;
use std::string::String;

/// Lines that bring a name.
#[derive(Clone, Copy, Drop)]
pub enum Naming {
    /// Those that begin a node, with its name.
    Nodes,
    /// Those of the listed names of a node.
    Edges,
}

/// The name of the node that a line begins.
pub fn begun(entry: &Entry) -> Option<&Name>
    ensures { option_copied result ≡ begun_name (entry_value entry.now) }
{
    match entry.node_line() {
        Some(NodeLine::Node(name)) => Some(name),
        _ => None,
    }
}

/// The name that a line lists.
pub fn listed(entry: &Entry) -> Option<&Name>
    ensures { option_copied result ≡ listed_name (entry_value entry.now) }
{
    match entry.node_line() {
        Some(NodeLine::Edge(name, _)) => Some(name),
        _ => None,
    }
}

impl Naming {
    // The name that a line brings.
    fn name(self, entry: &Entry) -> Option<&Name>
        ensures { option_copied result ≡ name_by self (entry_value entry.now) }
    {
        match self {
            Naming::Nodes => begun(entry),
            Naming::Edges => listed(entry),
        }
    }
}

/// Keeps the place of a name, if it has none yet.
pub fn keep_first(
    alloc: Global,
    firsts: &mut IndexMap<String, usize>,
    name: &Name,
    place: usize,
) -> Result<(), Memory>
    ensures { OnOk result ((q : List ℕ) → get_by_text firsts.new q ≡ kept_first (get_by_text firsts.old q) q name.now place) }
{
    if firsts.contains_key(name.text()) {
        return Ok(());
    }
    firsts.insert(String::from_str(alloc, name.text())?, place)?;
    Ok(())
}

/// The place of a name.
pub fn first_place(firsts: &IndexMap<String, usize>, name: &Name) -> Option<usize>
    ensures { result ≡ get_by_text firsts.now name.now }
{
    match firsts.get(name.text()) {
        Some(place) => Some(*place),
        None => None,
    }
}

/// Whether a place is the first of a name.
pub fn is_first(firsts: &IndexMap<String, usize>, name: &Name, place: usize) -> bool
    ensures { IsTrue result ↔ (get_by_text firsts.now name.now ≡ Some place) }
{
    first_place(firsts, name) == Some(place)
}

/// The first place of each name among those that the lines bring.
pub fn first_places(
    alloc: Global,
    naming: Naming,
    entries: &[Entry],
) -> Result<IndexMap<String, usize>, Memory>
    ensures { IfOk result (λ firsts. AreFirsts firsts (names_by naming (entry_values entries.now))) }
{
    let mut firsts = IndexMap::new(alloc);
    let mut place = 0;
    for entry in entries {
        if let Some(name) = naming.name(entry) {
            keep_first(alloc, &mut firsts, name, place)?;
            place += 1;
        }
    }
    Ok(firsts)
}
