//! The lines of links, folders and separators.
ghost use Rattle.std.specs.Prelude.{◌≡◌, ◌+◌, ◌*◌, ◌++◌, ◌∷◌, [], OnOk};
ghost use Rattle.std.specs.Option.{option_map};
ghost use Rattle.hm_marks.specs.Contents.{nothing, link, separator};
ghost use Rattle.hm_marks_tokens.specs.Lines as lines;
ghost use Rattle.hm_netscape_entries.specs.Next.{note_seen};
ghost use Rattle.hm_netscape_entries.specs.Written.{trimmed, note_lines};
ghost use Rattle.hm_netscape_lines.specs.Behind.{seen, AreBehind, StandBehind, IsHeaded, IsEnded};

use crate::entry::Entry;
use hm_tree::Memory;

/// Puts a link behind bytes, within so many folders.
pub fn add_link(out: &mut Vec<u8>, level: usize, entry: Entry<'_>) -> Result<(), Memory>
    ensures { OnOk result (StandBehind level out.old.items out.new.items (link (seen entry.entry) nothing)) }
{
    begin_line(out, level, b"<DT><A")?;
    out.extend_from_slice(entry.attributes)?;
    add_text(out, entry.title, b"</A>\n")?;
    add_note(out, level, entry.note)
}

/// Puts the heading of a folder behind bytes, and the line that opens its list.
pub fn add_heading(out: &mut Vec<u8>, level: usize, entry: Entry<'_>) -> Result<(), Memory>
    ensures { OnOk result (IsHeaded level out.old.items out.new.items (seen entry.entry)) }
{
    begin_line(out, level, b"<DT><H3")?;
    out.extend_from_slice(entry.attributes)?;
    add_text(out, entry.title, b"</H3>\n")?;
    add_note(out, level, entry.note)?;
    begin_line(out, level, b"<DL><p>\n")
}

/// Puts the end of a folder's list behind what stands in it.
pub fn add_end(out: &mut Vec<u8>, level: usize) -> Result<(), Memory>
    ensures { OnOk result (IsEnded level out.old.items out.new.items) }
{
    begin_line(out, level, b"</DL><p>\n")
}

/// Puts a separator behind bytes, by its attributes.
pub fn add_separator(out: &mut Vec<u8>, level: usize, attributes: &[u8]) -> Result<(), Memory>
    ensures { OnOk result (StandBehind level out.old.items out.new.items (separator attributes.now nothing)) }
{
    begin_line(out, level, b"<HR")?;
    out.extend_from_slice(attributes)?;
    Ok(out.extend_from_slice(b">\n")?)
}

// The `>` of a tag, a text, and more.
pub(crate) fn add_text(out: &mut Vec<u8>, text: &[u8], more: &[u8]) -> Result<(), Memory>
    ensures { OnOk result (out.new.items ≡ out.old.items ++ 62 ∷ (text.now ++ more.now)) }
{
    out.push(b'>')?;
    out.extend_from_slice(text)?;
    Ok(out.extend_from_slice(more)?)
}

// The line of a note, where there is one, without the white space at its end.
pub(crate) fn add_note(out: &mut Vec<u8>, level: usize, note: Option<&[u8]>) -> Result<(), Memory>
    ensures { OnOk result (AreBehind level out.old.items out.new.items (note_lines (option_map trimmed (note_seen note.entry)))) }
{
    match note {
        Some(bytes) => {
            begin_line(out, level, b"<DD>")?;
            out.extend_from_slice(bytes.trim_ascii_end())?;
            Ok(out.push(b'\n')?)
        }
        None => Ok(()),
    }
}

// The spaces before a line, four for each folder that is open, and some bytes behind them.
pub(crate) fn begin_line(out: &mut Vec<u8>, level: usize, bytes: &[u8]) -> Result<(), Memory>
    ensures { OnOk result (out.new.items ≡ out.old.items ++ (lines.indent level ++ bytes.now)) }
{
    for _ in 0..level {
        out.extend_from_slice(b"    ")?;
    }
    Ok(out.extend_from_slice(bytes)?)
}
