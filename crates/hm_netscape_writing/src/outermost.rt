//! What stood in the outermost folder, written anew for the tree of a file.
ghost use Rattle.std.specs.Prelude.{◌≡◌, ◌≤◌, ◌<◌, ◌+◌, [], ℕ, true, false, List, IfOk, OnOk, MatchOption, IsUtf8};
ghost use Rattle.std.specs.Option.{is_some};
ghost use Rattle.hm_tree.specs.Nodes.{depth};
ghost use Rattle.hm_schema.specs.Membership.{IsMemberTree};
ghost use Rattle.hm_book_items.specs.ItemTrees.{Lists};
ghost use Rattle.hm_marks_schema.specs.Schema.{marks_schema};
ghost use Rattle.hm_marks_schema.specs.Members.{IsAt};
ghost use Rattle.hm_marks_tokens.specs.Symbols.{Symbol, HasSymbols};
ghost use Rattle.hm_marks_tokens.specs.Grammar.{Contents};
ghost use Rattle.hm_netscape_entries.specs.Next.{a_folder, next_seen, IsLeft, IsInFolder};
ghost use Rattle.hm_netscape_entries.specs.Toolbars as toolbars;
ghost use Rattle.hm_netscape_files.specs.Anew.{bar_entry};
ghost use Rattle.hm_netscape_lines.specs.Behind.{seen};
ghost use Rattle.hm_netscape_writing.specs.Added.{most_open, HaveRoom};
ghost use Rattle.hm_netscape_writing.specs.Outermost.{AddsOutermost, IsMissing, IsFound, IsNoBar};

use crate::folders::{add_kept_folder, add_new, add_old, add_over};
use hm_book_items::{NewTrees, item_lists};
use hm_marks_schema::folders_of;
use hm_netscape_entries::{Next, is_toolbar, next_entry};
use hm_netscape_files::nesting_in;
use hm_netscape_lines::Entry;
use hm_tree::{Memory, Tree};
use std::alloc::Global;

// Puts what stood in the outermost folder behind bytes, written anew for the tree of a file. Gives what stands behind its end.
pub(crate) fn add_outermost<'a>(
    alloc: Global,
    out: &mut Vec<u8>,
    old: &'a [u8],
    tree: &Tree,
) -> Result<&'a [u8], Memory>
    requires folder { IsInFolder old.now }
    requires utf8 { IsUtf8 old.now }
    requires tree { IsMemberTree marks_schema tree.now }
    requires room { depth tree.now < most_open }
    ensures { IfOk result (λ behind. (c : Contents) (more : List Symbol) (rest : List ℕ) → IsLeft old.now c more rest → AddsOutermost out.old.items out.new.items c tree.now × HasSymbols false behind.now more rest) }
{
    let (bar, other) = folders_of(tree);
    add_missing_bar(alloc, out, old, bar)?;
    let lists = item_lists(alloc, other)?;
    let mut trees = NewTrees::new(alloc, &lists)?;
    match add_front(alloc, out, old, &mut trees)? {
        (Some(entry), inside) => {
            let rest = add_kept_folder(alloc, out, 1, entry, inside, bar)?;
            let behind = add_old(alloc, out, 1, rest, &mut trees)?;
            add_new(alloc, out, 1, &trees)?;
            Ok(behind)
        }
        (None, behind) => {
            add_new(alloc, out, 1, &trees)?;
            Ok(behind)
        }
    }
}

// Puts a new bookmarks bar behind bytes, where there was none and something is to stand in it.
fn add_missing_bar(alloc: Global, out: &mut Vec<u8>, old: &[u8], tree: &Tree) -> Result<(), Memory>
    requires folder { IsInFolder old.now }
    requires tree { IsAt 1 tree.now }
    requires room { 2 + depth tree.now ≤ most_open }
    ensures { OnOk result ((c : Contents) (more : List Symbol) (rest : List ℕ) → IsLeft old.now c more rest → IsMissing (bar_entry c) tree.now out.old.items out.new.items) }
{
    if has_bar(old) || tree.count() == 0 {
        return Ok(());
    }
    let entry = Entry {
        attributes: b" PERSONAL_TOOLBAR_FOLDER=\"true\"",
        title: b"Bookmarks bar",
        note: None,
    };
    add_kept_folder(alloc, out, 1, entry, b"</DL>", tree)?;
    Ok(())
}

// Puts what stays of all in front of the bookmarks bar behind bytes. Gives the entry of that and what stands in it, or none and what
// stands behind the end.
fn add_front<'a>(
    alloc: Global,
    out: &mut Vec<u8>,
    old: &'a [u8],
    trees: &mut NewTrees,
) -> Result<(Option<Entry<'a>>, &'a [u8]), Memory>
    requires folder { IsInFolder old.now }
    requires utf8 { IsUtf8 old.now }
    requires room { (lists : Lists) × HaveRoom 1 trees.old lists [] }
    ensures found { IfOk result (λ found. (lists : Lists) (c : Contents) (more : List Symbol) (rest : List ℕ) → HaveRoom 1 trees.old lists [] → IsLeft old.now c more rest → IsFound found.0 lists c trees.new out.old.items out.new.items found.1.now more rest) }
    ensures utf8 { IfOk result (λ found. IsUtf8 found.1.now) }
{
    let mut rest = old;
    loop {
        let (next, behind) = next_entry(rest);
        match next {
            Next::End => return Ok((None, behind)),
            _ => match bar_at(next) {
                Some(entry) => return Ok((Some(entry), behind)),
                None => rest = add_over(alloc, out, 1, next, behind, trees)?,
            },
        }
    }
}

// Whether the bookmarks bar is in the outermost folder.
fn has_bar(bytes: &[u8]) -> bool
    requires { IsInFolder bytes.now }
    ensures { (c : Contents) (more : List Symbol) (rest : List ℕ) → IsLeft bytes.now c more rest → result ≡ is_some (bar_entry c) }
{
    let mut rest = bytes;
    loop {
        let (next, behind) = next_entry(rest);
        match next {
            Next::End => return false,
            Next::Folder(attributes, _, _) => {
                if is_toolbar(attributes) {
                    return true;
                }
                rest = nesting_in(behind).1;
            }
            _ => rest = behind,
        }
    }
}

// The entry of the bookmarks bar, if that stands next.
fn bar_at(next: Next<'_>) -> Option<Entry<'_>>
    ensures { MatchOption result (IsNoBar (next_seen next.entry)) (λ entry. (next_seen next.entry ≡ a_folder (seen entry)) × (toolbars.is_toolbar (seen entry).attributes ≡ true)) }
{
    match next {
        Next::Folder(attributes, title, note) => {
            if is_toolbar(attributes) {
                Some(Entry {
                    attributes,
                    title,
                    note,
                })
            } else {
                None
            }
        }
        _ => None,
    }
}
