//! The first bad line of a lens file.
ghost use Rattle.std.specs.Prelude.{◌≡◌, ◌↔◌, ◌<◌, IsTrue, IfOk, MatchOption, length, take, count_by};
ghost use Rattle.hm_schema_lines.specs.Entries.{entry_value, entry_values, unknown};
ghost use Rattle.hm_schema_lines.specs.FirstBad.{HasNoBad, IsFirstBad};
ghost use Rattle.hm_schema_lines.specs.Firsts.{AreFirsts, node_names};
ghost use Rattle.hm_schema_lines.specs.Judging.{IsKnown, lines_of};
ghost use Rattle.hm_focal.specs.OwnLines.{body_value, lens_value, own_value, own_values, nothing, is_lens, lens_names};
ghost use Rattle.hm_focal.specs.BadLines.{IsBadLine};
ghost use Rattle.hm_focal.specs.Judging.{IsBadBody, IsBadLens, IsBadOwn};

use crate::calls::calls_other;
use crate::lenses::declared_lenses;
use crate::own::{Body, LensLine, Own};
use hm_focal_terms::is_long;
use hm_schema_lines::{
    Before, Entry, Line, is_bad_line, is_first, is_node, read_section, section_at,
};
use hm_tree::Memory;
use indexmap::IndexMap;
use std::alloc::Global;
use std::string::String;

const MOST_LENSES: usize = 200;

fn is_bad_body(body: &Body, lenses: &IndexMap<String, usize>) -> bool
    ensures { IsTrue result ↔ IsBadBody lenses.now (body_value body.now) }
{
    match body {
        Body::Oversized => true,
        Body::Term(term) => {
            if is_long(term) {
                return true;
            }
            calls_other(term, lenses)
        }
    }
}

// Whether a lens line is bad, behind so many others.
fn is_bad_lens(
    line: &Line<'_>,
    lens: &LensLine,
    lenses: &IndexMap<String, usize>,
    before: usize,
) -> bool
    requires { IsKnown line.now }
    ensures { IsTrue result ↔ IsBadLens (lines_of line.now) lenses.now before (lens_value lens.now) }
{
    if before >= MOST_LENSES {
        return true;
    }
    if !is_first(lenses, &lens.name, before) {
        return true;
    }
    if !is_node(line, &lens.source) {
        return true;
    }
    if !is_node(line, &lens.view) {
        return true;
    }
    is_bad_body(&lens.body, lenses)
}

// Whether a line of the file's own is bad.
fn is_bad_own(line: &Line<'_>, own: &Own, lenses: &IndexMap<String, usize>, before: usize) -> bool
    requires { IsKnown line.now }
    ensures { IsTrue result ↔ IsBadOwn (lines_of line.now) lenses.now before (own_value own.now) }
{
    match own {
        Own::Lens(lens) => is_bad_lens(line, lens, lenses, before),
        Own::Main(body) => is_bad_body(body, lenses),
        Own::Nothing => false,
        Own::Header => false,
        Own::Format(_) => false,
    }
}

// Whether a line is none of the table, or out of its place.
fn is_unreadable(entry: &Entry, own: &Own) -> bool
    ensures { IsTrue result ↔ ((entry_value entry.now ≡ unknown) × (own_value own.now ≡ nothing)) }
{
    matches!(entry, Entry::Unknown) && matches!(own, Own::Nothing)
}

fn is_lens(own: &Own) -> bool
    ensures { result ≡ is_lens (own_value own.now) }
{
    matches!(own, Own::Lens(_))
}

// Whether a line is bad.
fn is_bad(
    alloc: Global,
    line: &Line<'_>,
    own: &[Own],
    lenses: &IndexMap<String, usize>,
    before: usize,
) -> Result<bool, Memory>
    requires known { IsKnown line.now }
    requires lenses { AreFirsts lenses.now (lens_names (own_values own.now)) }
    requires before { before ≡ count_by is_lens (take line.now.place (own_values own.now)) }
    requires place { line.now.place < length line.now.entries.now }
    requires own { line.now.place < length own.now }
    ensures { IfOk result (λ bad. IsTrue bad ↔ IsBadLine (lines_of line.now) (own_values own.now) line.now.place) }
{
    let entry = &line.entries[line.place];
    let said = &own[line.place];
    if is_unreadable(entry, said) {
        return Ok(true);
    }
    if is_bad_own(line, said, lenses, before) {
        return Ok(true);
    }
    match entry {
        Entry::Says(says) => Ok(is_bad_line(alloc, line, says)?),
        Entry::Skipped => Ok(false),
        Entry::Unknown => Ok(false),
    }
}

/// The place of the first bad line, if there is one.
pub fn first_bad(
    alloc: Global,
    entries: &[Entry],
    own: &[Own],
    declared: &IndexMap<String, usize>,
) -> Result<Option<usize>, Memory>
    requires declared { AreFirsts declared.now (node_names (entry_values entries.now)) }
    requires long { length own.now ≡ length entries.now }
    ensures { IfOk result (λ found. MatchOption found (HasNoBad (IsBadLine (entry_values entries.now) (own_values own.now))) (IsFirstBad (IsBadLine (entry_values entries.now) (own_values own.now)))) }
{
    let lenses = declared_lenses(alloc, own)?;
    let mut before = Before::none();
    let mut section = read_section(alloc, entries)?;
    let mut lenses_before = 0;
    for place in 0..entries.len() {
        section = section_at(alloc, entries, place, section)?;
        let line = Line {
            entries,
            place,
            before,
            declared,
            section: &section,
        };
        if is_bad(alloc, &line, own, &lenses, lenses_before)? {
            return Ok(Some(place));
        }
        before = before.next(entries, place);
        lenses_before += usize::from(is_lens(&own[place]));
    }
    Ok(None)
}
