//! What stood in a folder, written anew for a tree.
ghost use Rattle.std.specs.Prelude.{◌≡◌, ◌≢◌, ◌≤◌, ◌<◌, ◌+◌, ◌++◌, ◌∷◌, [], ℕ, suc, length, map, false, List, Option, None, IfOk, OnOk, IsUtf8};
ghost use Rattle.hm_tree.specs.Names.{name_cmp};
ghost use Rattle.hm_tree.specs.Classes.{IsClean};
ghost use Rattle.hm_tree.specs.Nodes.{depth};
ghost use Rattle.hm_book_items.specs.Items.{Each, fresh, added};
ghost use Rattle.hm_book_items.specs.ItemTrees.{Lists};
ghost use Rattle.hm_marks.specs.Contents.{nothing, link, folder};
ghost use Rattle.hm_marks.specs.Pieces.{an_item};
ghost use Rattle.hm_marks_schema.specs.Members.{IsAt, IsGood};
ghost use Rattle.hm_marks_tokens.specs.Symbols.{Symbol, HasSymbols};
ghost use Rattle.hm_marks_tokens.specs.Grammar.{Contents};
ghost use Rattle.hm_netscape_entries.specs.Entries.{html};
ghost use Rattle.hm_netscape_entries.specs.Next.{an_end, next_seen, IsLeft, Begins, IsInFolder, IsUtf8Next};
ghost use Rattle.hm_netscape_lines.specs.Behind.{seen};
ghost use Rattle.hm_netscape_writing.specs.Added.{Before, most_open, Adds, AddsAnew, AddsFolder, HaveRoom, HaveStayed, IsPast, AreIn};

use crate::links::add_kept_link;
use hm_book_items::{NewTrees, item_lists};
use hm_marks_schema::{ItemTree, item_of};
use hm_netscape_entries::{Next, next_entry, text_of};
use hm_netscape_files::nesting_in;
use hm_netscape_lines::{
    Entry, add_end, add_heading, add_new_heading, add_new_link, add_separator,
};
use hm_tree::{Memory, Name, Tree};
use std::alloc::Global;

// Puts what stood in a folder behind bytes, written anew for a tree. Gives what stands behind the end of that folder.
#[cycle(folders)]
fn add_folder<'a>(
    alloc: Global,
    out: &mut Vec<u8>,
    level: usize,
    old: &'a [u8],
    tree: &Tree,
) -> Result<&'a [u8], Memory>
    requires folder { IsInFolder old.now }
    requires utf8 { IsUtf8 old.now }
    requires tree { IsAt 1 tree.now }
    requires room { level + depth tree.now ≤ most_open }
    ensures anew { IfOk result (λ behind. (c : Contents) (more : List Symbol) (rest : List ℕ) → IsLeft old.now c more rest → AddsAnew level out.old.items out.new.items c tree.now × HasSymbols false behind.now more rest) }
    ensures utf8 { IfOk result (λ behind. IsUtf8 behind.now) }
    ensures shorter { IfOk result (λ behind. length behind.now < length old.now) }
{
    let lists = item_lists(alloc, tree)?;
    let mut trees = NewTrees::new(alloc, &lists)?;
    let behind = add_old(alloc, out, level, old, &mut trees)?;
    add_new(alloc, out, level, &trees)?;
    Ok(behind)
}

// Puts what stays of a folder behind bytes. Gives what stands behind its end.
#[cycle(folders)]
pub(crate) fn add_old<'a>(
    alloc: Global,
    out: &mut Vec<u8>,
    level: usize,
    old: &'a [u8],
    trees: &mut NewTrees,
) -> Result<&'a [u8], Memory>
    requires folder { IsInFolder old.now }
    requires utf8 { IsUtf8 old.now }
    requires room { (lists : Lists) × (before : Before) × HaveRoom level trees.old lists before }
    ensures stays { IfOk result (λ behind. (lists : Lists) (before : Before) (c : Contents) (more : List Symbol) (rest : List ℕ) → HaveRoom level trees.old lists before → IsLeft old.now c more rest → HaveStayed level lists before c trees.new out.old.items out.new.items × HasSymbols false behind.now more rest) }
    ensures utf8 { IfOk result (λ behind. IsUtf8 behind.now) }
    ensures shorter { IfOk result (λ behind. length behind.now < length old.now) }
{
    let mut rest = old;
    loop {
        let (next, behind) = next_entry(rest);
        match next {
            Next::End => return Ok(behind),
            _ => rest = add_over(alloc, out, level, next, behind, trees)?,
        }
    }
}

// Puts what becomes of an entry behind bytes, if it stays. Gives what stands behind it.
#[cycle(folders)]
pub(crate) fn add_over<'a>(
    alloc: Global,
    out: &mut Vec<u8>,
    level: usize,
    next: Next<'a>,
    behind: &'a [u8],
    trees: &mut NewTrees,
) -> Result<&'a [u8], Memory>
    requires next { AreIn (next_seen next) behind.now }
    requires some { next_seen next ≢ an_end }
    requires utf8 { IsUtf8Next (next_seen next) × IsUtf8 behind.now }
    requires room { (lists : Lists) × (before : Before) × HaveRoom level trees.old lists before }
    ensures past { IfOk result (λ left. (lists : Lists) (before : Before) (c : Contents) (more : List Symbol) (rest : List ℕ) → HaveRoom level trees.old lists before → Begins behind.now more rest c (next_seen next.entry) → IsPast level lists before c trees.new out.old.items out.new.items left.now more rest) }
    ensures utf8 { IfOk result (λ left. IsUtf8 left.now) }
    ensures shorter { IfOk result (λ left. length left.now ≤ length behind.now) }
{
    match next {
        Next::End => unreachable!(),
        Next::Link(attributes, title, note) => {
            let entry = Entry {
                attributes,
                title,
                note,
            };
            add_over_link(alloc, out, level, entry, trees)?;
            Ok(behind)
        }
        Next::Folder(attributes, title, note) => {
            let entry = Entry {
                attributes,
                title,
                note,
            };
            add_over_folder(alloc, out, level, entry, behind, trees)
        }
        Next::Separator(attributes) => {
            add_separator(out, level, attributes)?;
            Ok(behind)
        }
    }
}

// The same of a link.
#[cycle(folders)]
fn add_over_link(
    alloc: Global,
    out: &mut Vec<u8>,
    level: usize,
    entry: Entry<'_>,
    trees: &mut NewTrees,
) -> Result<(), Memory>
    requires attributes { IsUtf8 entry.attributes.now }
    requires title { IsUtf8 entry.title.now }
    requires room { (lists : Lists) × (before : Before) × HaveRoom level trees.old lists before }
    ensures { OnOk result ((lists : Lists) (before : Before) → HaveRoom level trees.old lists before → HaveStayed level lists before (link (seen entry.entry) nothing) trees.new out.old.items out.new.items) }
{
    let key = text_of(alloc, entry.title)?;
    match trees.next(&key)? {
        Some(tree) => match item_of(tree) {
            ItemTree::Link(address) => add_kept_link(alloc, out, level, entry, address),
            ItemTree::Folder(inside) => add_new_folder(alloc, out, level, &key, inside),
        },
        None => Ok(()),
    }
}

// The same of a folder, behind whose heading these bytes stand. Gives what stands behind its end.
#[cycle(folders)]
fn add_over_folder<'a>(
    alloc: Global,
    out: &mut Vec<u8>,
    level: usize,
    entry: Entry<'_>,
    inside: &'a [u8],
    trees: &mut NewTrees,
) -> Result<&'a [u8], Memory>
    requires folder { IsInFolder inside.now }
    requires utf8 { IsUtf8 inside.now }
    requires title { IsUtf8 entry.title.now }
    requires room { (lists : Lists) × (before : Before) × HaveRoom level trees.old lists before }
    ensures stays { IfOk result (λ behind. (lists : Lists) (before : Before) (c : Contents) (more : List Symbol) (rest : List ℕ) → HaveRoom level trees.old lists before → IsLeft inside.now c more rest → HaveStayed level lists before (folder (seen entry.entry) c nothing) trees.new out.old.items out.new.items × HasSymbols false behind.now more rest) }
    ensures utf8 { IfOk result (λ behind. IsUtf8 behind.now) }
    ensures shorter { IfOk result (λ behind. length behind.now < length inside.now) }
{
    let key = text_of(alloc, entry.title)?;
    match trees.next(&key)? {
        Some(tree) => match item_of(tree) {
            ItemTree::Folder(below) => add_kept_folder(alloc, out, level, entry, inside, below),
            ItemTree::Link(address) => {
                add_new_link(out, level, &key, address)?;
                Ok(nesting_in(inside).1)
            }
        },
        None => Ok(nesting_in(inside).1),
    }
}

// Puts a folder from before behind bytes, in which what stands is written anew for a tree. Gives what stands behind its end.
#[cycle(folders)]
pub(crate) fn add_kept_folder<'a>(
    alloc: Global,
    out: &mut Vec<u8>,
    level: usize,
    entry: Entry<'_>,
    inside: &'a [u8],
    tree: &Tree,
) -> Result<&'a [u8], Memory>
    requires folder { IsInFolder inside.now }
    requires utf8 { IsUtf8 inside.now }
    requires tree { IsAt 1 tree.now }
    requires room { level + 1 + depth tree.now ≤ most_open }
    ensures anew { IfOk result (λ behind. (c : Contents) (more : List Symbol) (rest : List ℕ) → IsLeft inside.now c more rest → AddsFolder level out.old.items out.new.items (seen entry.entry) c tree.now × HasSymbols false behind.now more rest) }
    ensures utf8 { IfOk result (λ behind. IsUtf8 behind.now) }
    ensures shorter { IfOk result (λ behind. length behind.now < length inside.now) }
{
    add_heading(out, level, entry)?;
    let behind = add_folder(alloc, out, level + 1, inside, tree)?;
    add_end(out, level)?;
    Ok(behind)
}

// Puts a new folder behind bytes, by its key and the tree of what is to stand in it.
#[cycle(folders)]
fn add_new_folder(
    alloc: Global,
    out: &mut Vec<u8>,
    level: usize,
    key: &Name,
    tree: &Tree,
) -> Result<(), Memory>
    requires tree { IsAt 1 tree.now }
    requires room { level + 1 + depth tree.now ≤ most_open }
    ensures { OnOk result (AddsFolder level out.old.items out.new.items (html.new_folder key.now) nothing tree.now) }
{
    add_new_heading(out, level, key)?;
    add_folder(alloc, out, level + 1, b"</DL>", tree)?;
    add_end(out, level)
}

// Puts new items behind bytes, by their keys and places.
#[cycle(folders)]
pub(crate) fn add_new(
    alloc: Global,
    out: &mut Vec<u8>,
    level: usize,
    trees: &NewTrees,
) -> Result<(), Memory>
    requires room { (lists : Lists) × (before : Before) × HaveRoom level trees.now lists before }
    ensures { OnOk result ((lists : Lists) (before : Before) → HaveRoom level trees.now lists before → Adds level out.old.items out.new.items (map an_item (added name_cmp before lists))) }
{
    for edge in 0..trees.lists.len() {
        let key = trees.lists[edge].0;
        add_with_key(alloc, out, level, key, trees.left(edge))?;
    }
    Ok(())
}

// Those with a key, which are to show some trees.
#[cycle(folders)]
fn add_with_key(
    alloc: Global,
    out: &mut Vec<u8>,
    level: usize,
    key: &Name,
    trees: &[&Tree],
) -> Result<(), Memory>
    requires { (n : ℕ) × (level + n ≤ most_open) × Each name_cmp (IsGood (suc n) key.now) (map (λ t. t.now) trees.now) }
    ensures { OnOk result (Adds level out.old.items out.new.items (map an_item (fresh name_cmp key.now (map (λ t. t.now) trees.now)))) }
{
    for tree in trees {
        add_new_item(alloc, out, level, key, tree)?;
    }
    Ok(())
}

// A new item, by its key and its tree.
#[cycle(folders)]
fn add_new_item(
    alloc: Global,
    out: &mut Vec<u8>,
    level: usize,
    key: &Name,
    tree: &Tree,
) -> Result<(), Memory>
    requires key { IsClean key.now }
    requires tree { IsAt 3 tree.now }
    requires room { level + depth tree.now ≤ most_open }
    ensures { OnOk result (Adds level out.old.items out.new.items (an_item (key.now, None, tree.now) ∷ [])) }
{
    match item_of(tree) {
        ItemTree::Link(address) => add_new_link(out, level, key, address),
        ItemTree::Folder(inside) => add_new_folder(alloc, out, level, key, inside),
    }
}
