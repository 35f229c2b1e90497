//! The lines of a file.
ghost use Rattle.std.specs.Prelude.{◌≡◌, ◌⊎◌, ◌↔◌, IsTrue, IfOk, MatchOption};
ghost use Rattle.hm_schema_lines.specs.NodeLines.{node_line_value};
ghost use Rattle.hm_schema_lines.specs.Entries.{IsSkipped, IsBlank, IsEntry, AreEntries, skipped, unknown, says, entry_value, entry_values};

use crate::node_line::{NodeLine, read_node_line};
use bstr::ByteSlice;
use hm_tree::Memory;
use std::alloc::Global;

/// A line as it is read.
#[derive(Drop)]
pub enum Entry {
    /// Blank, or a comment.
    Skipped,
    /// No line of a node: what it says, if anything, is for the file to know.
    Unknown,
    /// Behind a pointer, so that the many lines that are skipped take little room.
    Says(Box<NodeLine>),
}

impl Entry {
    /// The line of a node, if it is one.
    pub fn node_line(&self) -> Option<&NodeLine>
        ensures { MatchOption result ((entry_value self.now ≡ skipped) ⊎ (entry_value self.now ≡ unknown)) (λ line. entry_value self.now ≡ says (node_line_value line.now)) }
    {
        match self {
            Entry::Says(line) => Some(line),
            _ => None,
        }
    }
}

// Whether a line is of spaces alone, or empty.
fn is_blank(line: &[u8]) -> bool
    ensures { IsTrue result ↔ IsBlank line.now }
{
    line.iter().all(|byte| *byte == b' ')
}

// Whether a line is blank or a comment.
fn is_skipped(line: &[u8]) -> bool
    ensures { IsTrue result ↔ IsSkipped line.now }
{
    line.first() == Some(&b'#') || is_blank(line)
}

/// A line by itself.
pub fn read_entry(alloc: Global, line: &[u8]) -> Result<Entry, Memory>
    ensures { IfOk result (λ entry. IsEntry line.now (entry_value entry)) }
{
    if is_skipped(line) {
        return Ok(Entry::Skipped);
    }
    match read_node_line(alloc, line)? {
        Some(line) => Ok(Entry::Says(Box::new(alloc, line)?)),
        None => Ok(Entry::Unknown),
    }
}

/// The lines of a file, in order.
pub fn read_entries(alloc: Global, bytes: &[u8]) -> Result<Vec<Entry>, Memory>
    ensures { IfOk result (λ entries. AreEntries bytes.now (entry_values entries.items)) }
{
    // The lines are counted first: a vector that grows holds up to three times the room for a while.
    let mut entries = Vec::with_capacity(alloc, bytes.lines().count())?;
    for line in bytes.lines() {
        entries.push(read_entry(alloc, line)?)?;
    }
    Ok(entries)
}
