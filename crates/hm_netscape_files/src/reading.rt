//! Reading a file.
ghost use Rattle.std.specs.Prelude.{◌≡◌};
ghost use Rattle.hm_format.specs.Answers.{Reads};
ghost use Rattle.hm_netscape_files.specs.Files.{NetscapeReads};

use crate::nesting::folders_within;
use crate::nodes::bookmarks_in;
use crate::opening::opened;
use hm_book_items::ItemTreeFault;
use hm_format::FormatFault;
use hm_marks_schema::MOST_FOLDERS;
use hm_marks_trees::bookmarks_tree;
use hm_tree::Tree;
use std::alloc::Global;

/// The tree of a file, or why it has none. Where more folders nest than may, nothing of them is read.
pub fn read_bookmarks(alloc: Global, bytes: &[u8]) -> Result<Tree, FormatFault>
    ensures { Reads (NetscapeReads bytes.now) result }
{
    let inside = opened(bytes)?;
    let depth = folders_within(inside);
    if depth > MOST_FOLDERS {
        return Err(FormatFault::TooDeep { depth });
    }
    let found = bookmarks_in(alloc, inside)?;
    match bookmarks_tree(alloc, found.bar, found.other) {
        Ok(tree) => Ok(tree),
        Err(ItemTreeFault::TooDeep { depth }) => Err(FormatFault::TooDeep { depth }),
        Err(ItemTreeFault::Memory) => Err(FormatFault::Memory),
    }
}
