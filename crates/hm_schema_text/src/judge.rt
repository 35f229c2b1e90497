//! The first bad line of a schema file, and the root of one that has none.
ghost use Rattle.std.specs.Prelude.{◌↔◌, ◌<◌, IsTrue, IfOk, MatchOption, count_by, length, Some};
ghost use Rattle.hm_schema_lines.specs.Entries.{entry_values, AreEntries};
ghost use Rattle.hm_schema_lines.specs.BadLines.{is_counted, IsNode};
ghost use Rattle.hm_schema_lines.specs.FirstBad.{HasNoBad, IsFirstBad};
ghost use Rattle.hm_schema_lines.specs.Firsts.{AreFirsts, node_names};
ghost use Rattle.hm_schema_lines.specs.Judging.{IsKnown, lines_of};
ghost use Rattle.hm_schema_text.specs.Head.{IsNth, NamesRoot};
ghost use Rattle.hm_schema_text.specs.BadLines.{IsBadLine};

use crate::head::{is_header_at, root_at, second_line};
use hm_schema_lines::{
    Before, Entry, Line, is_bad_line, is_counted, is_node, read_section, section_at,
};
use hm_tree::{Memory, Name};
use indexmap::IndexMap;
use std::alloc::Global;
use std::string::String;

// Whether the first line that isn't skipped is bad.
fn is_bad_first(alloc: Global, bytes: &[u8], line: &Line<'_>) -> Result<bool, Memory>
    requires read { AreEntries bytes.now (lines_of line.now) }
    requires first { IsNth (lines_of line.now) 0 line.now.place }
    ensures { IfOk result (λ bad. IsTrue bad ↔ IsBadLine bytes.now (lines_of line.now) line.now.place) }
{
    Ok(!is_header_at(alloc, bytes, line.place)?)
}

// Whether the second line that isn't skipped is bad.
fn is_bad_second(alloc: Global, bytes: &[u8], line: &Line<'_>) -> Result<bool, Memory>
    requires known { IsKnown line.now }
    requires read { AreEntries bytes.now (lines_of line.now) }
    requires second { IsNth (lines_of line.now) 1 line.now.place }
    ensures { IfOk result (λ bad. IsTrue bad ↔ IsBadLine bytes.now (lines_of line.now) line.now.place) }
{
    match root_at(alloc, bytes, line.place)? {
        Some(name) => Ok(!is_node(line, &name)),
        None => Ok(true),
    }
}

// Whether a line is bad.
fn is_bad(alloc: Global, bytes: &[u8], line: &Line<'_>) -> Result<bool, Memory>
    requires known { IsKnown line.now }
    requires read { AreEntries bytes.now (lines_of line.now) }
    requires place { line.now.place < length line.now.entries.now }
    ensures { IfOk result (λ bad. IsTrue bad ↔ IsBadLine bytes.now (lines_of line.now) line.now.place) }
{
    let entry = &line.entries[line.place];
    if !is_counted(entry) {
        return Ok(false);
    }
    if line.before.lines == 0 {
        return is_bad_first(alloc, bytes, line);
    }
    if line.before.lines == 1 {
        return is_bad_second(alloc, bytes, line);
    }
    match entry {
        Entry::Skipped => Ok(false),
        Entry::Unknown => Ok(true),
        Entry::Says(says) => is_bad_line(alloc, line, says),
    }
}

/// The place of the first bad line, if there is one.
pub fn first_bad(
    alloc: Global,
    bytes: &[u8],
    entries: &[Entry],
    declared: &IndexMap<String, usize>,
) -> Result<Option<usize>, Memory>
    requires read { AreEntries bytes.now (entry_values entries.now) }
    requires declared { AreFirsts declared.now (node_names (entry_values entries.now)) }
    ensures { IfOk result (λ found. MatchOption found (HasNoBad (IsBadLine bytes.now (entry_values entries.now))) (IsFirstBad (IsBadLine bytes.now (entry_values entries.now)))) }
{
    let mut before = Before::none();
    let mut section = read_section(alloc, entries)?;
    for place in 0..entries.len() {
        section = section_at(alloc, entries, place, section)?;
        let line = Line {
            entries,
            place,
            before,
            declared,
            section: &section,
        };
        if is_bad(alloc, bytes, &line)? {
            return Ok(Some(place));
        }
        before = before.next(entries, place);
    }
    Ok(None)
}

/// The name of the root's node in a file without a bad line; none where the header or the root is missing.
pub fn find_root(alloc: Global, bytes: &[u8], entries: &[Entry]) -> Result<Option<Name>, Memory>
    requires { HasNoBad (IsBadLine bytes.now (entry_values entries.now)) }
    ensures { IfOk result (λ found. MatchOption found (count_by is_counted (entry_values entries.now) < 2) (λ w. IsNode (entry_values entries.now) w × NamesRoot bytes.now (entry_values entries.now) w)) }
{
    match second_line(entries) {
        Some(place) => root_at(alloc, bytes, place),
        None => Ok(None),
    }
}
