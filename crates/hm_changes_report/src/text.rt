//! The text of changes.
ghost use Rattle.std.specs.Prelude.{◌≡◌, ◌++◌, ◌∷◌, [], IfOk, OnOk, flat_map};
ghost use Rattle.hm_changes_report.specs.Text.{sign, change_line, place_text, alike_line, counted, entries_text, numbers_text, first_text, changes_text, side_with, changes_of};

use hm_changes::{Change, Turn, entries_changed, entries_of, number_of};
use hm_changes_alike::AlikeNames;
use hm_report::{Conflict, put_conflicts, put_last_line};
use hm_tree::{Memory, Name, Path, Tree};
use hm_tree_spelling::append_path;
use std::alloc::Global;

/// What a synchronisation changes.
#[derive(Clone, Copy)]
pub struct Changes<'a> {
    /// Whether there is nothing that the sides last agreed on.
    pub first: bool,
    /// The old view of the left side, by which it is told of which side a name is.
    pub view: &'a Tree,
    /// The changes of the left view, in the order of paths, and how many entries it has before them.
    pub left: &'a [Change],
    pub left_entries: usize,
    /// The same of the right view.
    pub right: &'a [Change],
    pub right_entries: usize,
    /// The names that are alike, of which one comes or goes.
    pub alike: &'a [AlikeNames],
    /// The conflicts that remain.
    pub conflicts: &'a [Conflict],
}

/// The text of changes.
pub fn write_changes(alloc: Global, changes: Changes<'_>) -> Result<Vec<u8>, Memory>
    ensures { IfOk result (λ text. text.items ≡ changes_text (changes_of changes.entry)) }
{
    let mut text = Vec::new(alloc);
    put_first(&mut text, changes.first)?;
    put_changes(&mut text, b"A", changes.left)?;
    put_changes(&mut text, b"B", changes.right)?;
    put_alikes(&mut text, changes.view, changes.alike)?;
    put_conflicts(&mut text, changes.conflicts)?;
    put_numbers(alloc, &mut text, b"A", changes.left, changes.left_entries)?;
    put_numbers(alloc, &mut text, b"B", changes.right, changes.right_entries)?;
    put_last_line(alloc, &mut text, changes.conflicts.len())?;
    Ok(text)
}

// Puts that there is nothing to agree with behind a text, if so.
fn put_first(text: &mut Vec<u8>, first: bool) -> Result<(), Memory>
    ensures { OnOk result (text.new.items ≡ text.old.items ++ first_text first) }
{
    if first {
        text.extend_from_slice(b"first run\n")?;
    }
    Ok(())
}

fn sign(turn: Turn) -> &'static [u8]
    ensures { result.now ≡ sign turn }
{
    match turn {
        Turn::Added => b" + ",
        Turn::Deleted => b" - ",
    }
}

// Puts the line of a change of a side behind a text.
fn put_change(text: &mut Vec<u8>, side: &[u8], change: &Change) -> Result<(), Memory>
    ensures { OnOk result (text.new.items ≡ text.old.items ++ change_line side.now change.now) }
{
    text.extend_from_slice(side)?;
    text.extend_from_slice(sign(change.turn))?;
    append_path(&change.path, text)?;
    text.push(b'\n')?;
    Ok(())
}

// Puts the lines of the changes of a side behind a text.
fn put_changes(text: &mut Vec<u8>, side: &[u8], changes: &[Change]) -> Result<(), Memory>
    ensures { OnOk result (text.new.items ≡ text.old.items ++ flat_map (change_line side.now) changes.now) }
{
    for change in changes {
        put_change(text, side, change)?;
    }
    Ok(())
}

// The path of a name below a path.
fn below(path: &Path, name: &Name) -> Result<Path, Memory>
    ensures { IfOk result (λ whole. whole ≡ path.now ++ name.now ∷ []) }
{
    let above = &path.names;
    let mut names = Vec::with_capacity(*above.allocator(), above.len() + 1)?;
    for step in above {
        names.push(step.copy()?)?;
    }
    names.push(name.copy()?)?;
    Ok(Path { names })
}

// Puts a name below a path, behind its side, behind a text.
fn put_place(text: &mut Vec<u8>, view: &Tree, parent: &Path, name: &Name) -> Result<(), Memory>
    ensures { OnOk result (text.new.items ≡ text.old.items ++ place_text view.now parent.now name.now) }
{
    let path = below(parent, name)?;
    text.extend_from_slice(if view.has(&path) { b" A " } else { b" B " })?;
    append_path(&path, text)
}

// Puts the line of names that are alike behind a text.
fn put_alike(text: &mut Vec<u8>, view: &Tree, alike: &AlikeNames) -> Result<(), Memory>
    ensures { OnOk result (text.new.items ≡ text.old.items ++ alike_line view.now alike.now) }
{
    text.extend_from_slice(b"alike")?;
    for name in alike.names.names() {
        put_place(text, view, &alike.parent, name)?;
    }
    text.push(b'\n')?;
    Ok(())
}

// Puts the lines of names that are alike behind a text.
fn put_alikes(text: &mut Vec<u8>, view: &Tree, alikes: &[AlikeNames]) -> Result<(), Memory>
    ensures { OnOk result (text.new.items ≡ text.old.items ++ flat_map (alike_line view.now) alikes.now) }
{
    for alike in alikes {
        put_alike(text, view, alike)?;
    }
    Ok(())
}

// Puts a number, and then some bytes, behind a text.
fn put_number(alloc: Global, text: &mut Vec<u8>, number: usize, behind: &[u8]) -> Result<(), Memory>
    ensures { OnOk result (text.new.items ≡ text.old.items ++ counted number behind.now) }
{
    let digits = format!(in alloc; "{number}")?;
    text.extend_from_slice(digits.as_bytes())?;
    text.extend_from_slice(behind)?;
    Ok(())
}

// Puts the numbers of a side behind a text, if anything changes there.
fn put_numbers(
    alloc: Global,
    text: &mut Vec<u8>,
    side: &[u8],
    changes: &[Change],
    entries: usize,
) -> Result<(), Memory>
    ensures { OnOk result (text.new.items ≡ text.old.items ++ numbers_text side.now (side_with changes.now entries)) }
{
    if changes.is_empty() {
        return Ok(());
    }
    text.extend_from_slice(side)?;
    text.extend_from_slice(b": ")?;
    put_number(alloc, text, number_of(Turn::Added, changes), b" added, ")?;
    put_number(
        alloc,
        text,
        number_of(Turn::Deleted, changes),
        b" deleted; ",
    )?;
    put_entries(alloc, text, changes, entries)
}

// Puts the numbers of entries of a side behind a text.
fn put_entries(
    alloc: Global,
    text: &mut Vec<u8>,
    changes: &[Change],
    entries: usize,
) -> Result<(), Memory>
    ensures { OnOk result (text.new.items ≡ text.old.items ++ entries_text (side_with changes.now entries)) }
{
    put_number(alloc, text, entries, b" entries: ")?;
    put_number(alloc, text, entries_of(Turn::Added, changes), b" added, ")?;
    put_number(
        alloc,
        text,
        entries_of(Turn::Deleted, changes),
        b" deleted, ",
    )?;
    put_number(alloc, text, entries_changed(alloc, changes)?, b" changed\n")
}
