//! What stands before a line.
ghost use Rattle.std.specs.Prelude.{◌≡◌, ◌+◌, ◌<◌, List, length};
ghost use Rattle.hm_schema_lines.specs.Entries.{EntryValue, entry_value, entry_values};
ghost use Rattle.hm_schema_lines.specs.BadLines.{is_counted};
ghost use Rattle.hm_schema_lines.specs.Counting.{IsBefore};

use crate::entry::Entry;
use crate::firsts::listed;
use crate::section::{begins_node, is_shape, speaks_of_others};

/// How many lines of each kind stand before a line.
#[derive(Clone, Copy, Drop)]
pub struct Before {
    /// Lines that aren't skipped.
    pub lines: usize,
    /// Lines that begin a node.
    pub nodes: usize,
    /// Listed names, behind the last line that begins a node.
    pub edges: usize,
    /// Lines that speak of unlisted names, behind it.
    pub others: usize,
    /// Shapes behind it.
    pub shapes: usize,
}

/// Whether a line isn't skipped.
pub fn is_counted(entry: &Entry) -> bool
    ensures { result ≡ is_counted (entry_value entry.now) }
{
    !matches!(entry, Entry::Skipped)
}

impl Before {
    /// What stands before the first line.
    pub fn none() -> Before
        ensures { (es : List EntryValue) → IsBefore es 0 result }
    {
        Before {
            lines: 0,
            nodes: 0,
            edges: 0,
            others: 0,
            shapes: 0,
        }
    }

    /// What stands before the next line.
    pub fn next(self, entries: &[Entry], place: usize) -> Before
        requires before { IsBefore (entry_values entries.now) place self }
        requires place { place < length entries.now }
        ensures { IsBefore (entry_values entries.now) (place + 1) result }
    {
        let entry = &entries[place];
        let lines = self.lines + usize::from(is_counted(entry));
        if begins_node(entry) {
            return Before {
                lines,
                nodes: self.nodes + 1,
                edges: 0,
                others: 0,
                shapes: 0,
            };
        }
        Before {
            lines,
            nodes: self.nodes,
            edges: self.edges + usize::from(listed(entry).is_some()),
            others: self.others + usize::from(speaks_of_others(entry)),
            shapes: self.shapes + usize::from(is_shape(entry)),
        }
    }
}
