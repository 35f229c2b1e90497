//! Whether a file is certainly not read as a tree, which shows at the first link or folder that the tree lacks, or where a folder
//! ends too early.
ghost use Rattle.std.specs.Prelude.{◌≡◌, ◌∷◌, ◌++◌, ℕ, List, IfOk, Ok, IsTrue, MatchBool, IsUtf8};
ghost use Rattle.hm_tree.specs.Nodes.{Tree as TreeValue};
ghost use Rattle.hm_schema.specs.Membership.{IsMemberTree};
ghost use Rattle.hm_marks.specs.Among.{HasLeft, HasAll};
ghost use Rattle.hm_marks_schema.specs.Members.{IsAt};
ghost use Rattle.hm_marks_schema.specs.Schema.{marks_schema};
ghost use Rattle.hm_marks_tokens.specs.Symbols as symbols;
ghost use Rattle.hm_marks_tokens.specs.Symbols.{Symbol};
ghost use Rattle.hm_marks_tokens.specs.Grammar.{Contents, contents_symbols};
ghost use Rattle.hm_netscape_entries.specs.Entries.{html};
ghost use Rattle.hm_netscape_entries.specs.Next.{next_seen, IsLeft, IsInFolder};
ghost use Rattle.hm_netscape_entries.specs.Toolbars.{bar_of, other_of};
ghost use Rattle.hm_netscape_files.specs.Files.{NetscapeReads};
ghost use Rattle.hm_netscape_writing.specs.Outermost.{IsNoBar};
ghost use Rattle.hm_netscape_marks.specs.Seeking.{IsBar, IsInBar};

use crate::seeking::{behind_entry, behind_folder};
use hm_marks_schema::folders_of;
use hm_netscape_entries::{Next, is_toolbar, list_inside, next_entry};
use hm_netscape_files::head_len;
use hm_tree::{Memory, Tree};
use std::alloc::Global;

/// Whether a file that is read is certainly not read as a tree. Where that isn't found, nothing is known.
pub(crate) fn differs(alloc: Global, bytes: &[u8], tree: &Tree) -> Result<bool, Memory>
    requires read { (old : TreeValue) × NetscapeReads bytes.now (Ok old) }
    requires member { IsMemberTree marks_schema tree.now }
    ensures { IfOk result (λ found. IsTrue found → ¬ (NetscapeReads bytes.now (Ok tree.now))) }
{
    let Some(len) = head_len(bytes) else {
        unreachable!();
    };
    let (_, list) = bytes.split_at(len);
    let (bar, other) = folders_of(tree);
    outermost_differs(alloc, list_inside(list), bar, other)
}

// The same of what stands in the outermost folder, by the trees of what is to stand in the bookmarks bar and beside it.
fn outermost_differs(alloc: Global, bytes: &[u8], bar: &Tree, other: &Tree) -> Result<bool, Memory>
    requires folder { IsInFolder bytes.now }
    requires utf8 { IsUtf8 bytes.now }
    requires bar { IsAt 1 bar.now }
    requires other { IsAt 1 other.now }
    ensures { IfOk result (λ found. IsTrue found → (c : Contents) (more : List Symbol) (rest : List ℕ) → IsLeft bytes.now c more rest → HasAll html bar.now (bar_of c) → HasAll html other.now (other_of c) → ⊥) }
{
    let mut rest = bytes;
    let mut left = other.count();
    loop {
        let (next, behind) = next_entry(rest);
        match next {
            Next::End => return Ok(left > 0 || bar.count() > 0),
            _ => {
                if is_bar(next) {
                    return bar_differs(alloc, behind, bar, other, left);
                }
                match behind_entry(alloc, next, behind, other, left)? {
                    Some(passed) => (rest, left) = passed,
                    None => return Ok(true),
                }
            }
        }
    }
}

// The same of what stands in the bookmarks bar and behind it, where at least so many links and folders have to be left.
fn bar_differs(
    alloc: Global,
    bytes: &[u8],
    bar: &Tree,
    other: &Tree,
    missing: usize,
) -> Result<bool, Memory>
    requires folder { IsInBar bytes.now }
    requires utf8 { IsUtf8 bytes.now }
    requires bar { IsAt 1 bar.now }
    requires other { IsAt 1 other.now }
    ensures { IfOk result (λ found. IsTrue found → (inside c : Contents) (more : List Symbol) (rest : List ℕ) → IsLeft bytes.now inside (contents_symbols c ++ symbols.list_end ∷ more) rest → HasAll html bar.now inside → HasLeft html other.now missing c → ⊥) }
{
    match behind_folder(alloc, bytes, bar, bar.count())? {
        Some(behind) => Ok(behind_folder(alloc, behind, other, missing)?.is_none()),
        None => Ok(true),
    }
}

// Whether the bookmarks bar stands next.
fn is_bar(next: Next<'_>) -> bool
    ensures { MatchBool result (IsBar (next_seen next.entry)) (IsNoBar (next_seen next.entry)) }
{
    match next {
        Next::Folder(attributes, _, _) => is_toolbar(attributes),
        _ => false,
    }
}
