//! The lines of new links and folders, and of links with another address.
ghost use Rattle.std.specs.Prelude.{◌≡◌, OnOk};
ghost use Rattle.hm_marks.specs.Contents.{nothing, link};
ghost use Rattle.hm_netscape_entries.specs.Entries.{html, readdressed};
ghost use Rattle.hm_netscape_lines.specs.Behind.{seen, StandBehind, IsHeaded};

use crate::entry::Entry;
use crate::lines::{add_note, add_text, begin_line};
use hm_marks_tokens::{add_escaped, add_readdressed};
use hm_tree::{Memory, Name};

/// Puts a link behind bytes, within so many folders, and with another address.
pub fn add_addressed(
    out: &mut Vec<u8>,
    level: usize,
    entry: Entry<'_>,
    address: &Name,
) -> Result<(), Memory>
    ensures { OnOk result (StandBehind level out.old.items out.new.items (link (readdressed (seen entry.entry) address.now) nothing)) }
{
    begin_line(out, level, b"<DT><A")?;
    add_readdressed(out, entry.attributes, address.bytes())?;
    add_text(out, entry.title, b"</A>\n")?;
    add_note(out, level, entry.note)
}

/// Puts a new link behind bytes, by its title and its address.
pub fn add_new_link(
    out: &mut Vec<u8>,
    level: usize,
    title: &Name,
    address: &Name,
) -> Result<(), Memory>
    ensures { OnOk result (StandBehind level out.old.items out.new.items (link (html.new_link title.now address.now) nothing)) }
{
    begin_line(out, level, b"<DT><A HREF=\"")?;
    add_escaped(out, address.bytes())?;
    out.extend_from_slice(b"\">")?;
    add_escaped(out, title.bytes())?;
    Ok(out.extend_from_slice(b"</A>\n")?)
}

/// Puts the heading of a new folder behind bytes, by its title, and the line that opens its list.
pub fn add_new_heading(out: &mut Vec<u8>, level: usize, title: &Name) -> Result<(), Memory>
    ensures { OnOk result (IsHeaded level out.old.items out.new.items (html.new_folder title.now)) }
{
    begin_line(out, level, b"<DT><H3>")?;
    add_escaped(out, title.bytes())?;
    out.extend_from_slice(b"</H3>\n")?;
    begin_line(out, level, b"<DL><p>\n")
}
