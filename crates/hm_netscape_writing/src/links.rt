//! Links that are written anew.
ghost use Rattle.std.specs.Prelude.{◌≡◌, OnOk, IsUtf8};
ghost use Rattle.std.specs.Str.{bytes_eq};
ghost use Rattle.hm_marks.specs.Contents.{nothing, link};
ghost use Rattle.hm_marks.specs.Writing.{addressed};
ghost use Rattle.hm_netscape_entries.specs.Entries.{html};
ghost use Rattle.hm_netscape_lines.specs.Behind.{seen, StandBehind};

use hm_netscape_entries::address_in;
use hm_netscape_lines::{Entry, add_addressed, add_link};
use hm_tree::{Memory, Name};
use std::alloc::Global;

// Puts a link from before behind bytes, with an address: it stays as it is where it has this one.
pub(crate) fn add_kept_link(
    alloc: Global,
    out: &mut Vec<u8>,
    level: usize,
    entry: Entry<'_>,
    address: &Name,
) -> Result<(), Memory>
    requires { IsUtf8 entry.attributes.now }
    ensures { OnOk result (StandBehind level out.old.items out.new.items (link (addressed html (seen entry.entry) address.now) nothing)) }
{
    let old = address_in(alloc, entry.attributes)?;
    if are_same(old.text(), address.text()) {
        add_link(out, level, entry)
    } else {
        add_addressed(out, level, entry, address)
    }
}

fn are_same(one: &str, two: &str) -> bool
    ensures { result ≡ bytes_eq one.now two.now }
{
    one == two
}
