//! The lines of a file that is to show another tree.
ghost use Rattle.std.specs.Prelude.{◌≡◌, ◌++◌, ◌∷◌, [], T, All, IfOk, OnOk, None, List, map, string_bytes};
ghost use Rattle.std.specs.List.{flat_map};
ghost use Rattle.std.specs.FinMap.{is_sorted};
ghost use Rattle.hm_tree.specs.Names.{Name as NameValue, name_cmp};
ghost use Rattle.hm_book_items.specs.Items.{fresh, added};
ghost use Rattle.hm_book_items.specs.Plans.{keys_of};
ghost use Rattle.hm_book_items.specs.Lent.{lent_lists};
ghost use Rattle.hm_lines.specs.Content.{IsWord};
ghost use Rattle.hm_lines_cards.specs.Lent.{AreLines, lent, all_bytes, plain, line_of};
ghost use Rattle.hm_lines_cards.specs.Lines.{IsLine};
ghost use Rattle.hm_lines_cards.specs.Rewriting.{new_line, rewritten};
ghost use Rattle.hm_lines_files.specs.Components as spec;
ghost use Rattle.hm_lines_files.specs.Rewriting.{keyed, remaining, fate, items_for, component_for};
ghost use Rattle.hm_book_items.specs.ItemTrees.{Lists};
ghost use Rattle.hm_lines_files.specs.Lent.{texts, component_of, piece_of, pieces_of, layout_of, template_of, HasLines, HaveLines};
ghost use Rattle.hm_book_items.specs.Taken.{HasTaken};
ghost use Rattle.hm_lines_files.specs.WrittenLines.{Extends};
ghost use Rattle.hm_lines_files.specs.WrittenPieces.{IsAnew};

use crate::component::{Component, Layout, Piece, Template};
use crate::writer::Writer;
use hm_book_items::NewTrees;
use hm_lines::{escape, parts};
use hm_lines_cards::{Line, NewLine, key_of, rewrite as rewrite_lines};
use hm_tree::{Memory, Name, Tree};
use std::alloc::Global;
use std::str;

/// The text of a file's components that are to show lists of trees, folded; none where its lines stay.
pub fn rewrite<'a>(
    alloc: Global,
    template: &Template,
    shown: &[(Name, bool)],
    layout: &Layout,
    lines: &[&str],
    lists: &[(&'a Name, Vec<&'a Tree>)],
) -> Result<Option<Vec<u8>>, Memory>
    requires word { IsWord template.now.key }
    requires front { AreLines template.now.front.items }
    requires more { AreLines template.now.more.items }
    requires lines { HaveLines layout.now.pieces.items }
    requires keyed { All (spec.HasKey template.now.key) (spec.components (layout_of layout.now)) }
    requires old { texts lines.now ≡ spec.all_lines (layout_of layout.now) }
    requires rise { T (is_sorted name_cmp (lent_lists lists.now)) }
    ensures { IfOk result (IsAnew (template_of template.now) shown.now (lent_lists lists.now) (layout_of layout.now)) }
{
    let mut trees = NewTrees::new(alloc, lists)?;
    let mut writer = Writer::new(alloc, lines)?;
    append_old(
        alloc,
        template,
        shown,
        &layout.pieces,
        &mut trees,
        &mut writer,
    )?;
    append_new(alloc, template, shown, &trees, &mut writer)?;
    writer.append_all(&layout.end)?;
    Ok(writer.finish())
}

// Puts what becomes of pieces behind other lines.
fn append_old(
    alloc: Global,
    template: &Template,
    shown: &[(Name, bool)],
    pieces: &[Piece],
    trees: &mut NewTrees,
    writer: &mut Writer,
) -> Result<(), Memory>
    requires lines { HaveLines pieces.now }
    requires keyed { All (spec.HasKey template.now.key) (spec.components_of (pieces_of pieces.now)) }
    requires taken { (lists : Lists) × HasTaken trees.old lists [] }
    ensures taken { OnOk result ((lists : Lists) → HasTaken trees.old lists [] → HasTaken trees.new lists (keys_of (keyed template.now.key (spec.components_of (pieces_of pieces.now))))) }
    ensures lines { OnOk result ((lists : Lists) → HasTaken trees.old lists [] → Extends writer.old writer.new (flat_map spec.piece_lines (remaining (template_of template.now) shown.now lists [] (pieces_of pieces.now)))) }
{
    for place in 0..pieces.len() {
        append_piece(alloc, template, shown, &pieces[place], trees, writer)?;
    }
    Ok(())
}

// Puts what becomes of a piece behind other lines.
fn append_piece(
    alloc: Global,
    template: &Template,
    shown: &[(Name, bool)],
    piece: &Piece,
    trees: &mut NewTrees,
    writer: &mut Writer,
) -> Result<(), Memory>
    requires lines { HasLines piece.now }
    requires keyed { All (spec.HasKey template.now.key) (spec.components_of (piece_of piece.now ∷ [])) }
    requires taken { (lists : Lists) × ((before : List spec.Component) × HasTaken trees.old lists (keys_of (keyed template.now.key before))) }
    ensures taken { OnOk result ((lists : Lists) (before : List spec.Component) → HasTaken trees.old lists (keys_of (keyed template.now.key before)) → HasTaken trees.new lists (keys_of (keyed template.now.key (before ++ spec.components_of (piece_of piece.now ∷ []))))) }
    ensures lines { OnOk result ((lists : Lists) (before : List spec.Component) → HasTaken trees.old lists (keys_of (keyed template.now.key before)) → Extends writer.old writer.new (flat_map spec.piece_lines (remaining (template_of template.now) shown.now lists before (piece_of piece.now ∷ [])))) }
{
    match piece {
        Piece::Other(line) => writer.append(line),
        Piece::Item(component) => append_old_item(alloc, template, shown, component, trees, writer),
    }
}

// The same of a component.
fn append_old_item(
    alloc: Global,
    template: &Template,
    shown: &[(Name, bool)],
    component: &Component,
    trees: &mut NewTrees,
    writer: &mut Writer,
) -> Result<(), Memory>
    requires lines { AreLines component.now.lines.items }
    requires keyed { spec.HasKey template.now.key (component_of component.now) }
    requires taken { (lists : Lists) × ((before : List spec.Component) × HasTaken trees.old lists (keys_of (keyed template.now.key before))) }
    ensures taken { OnOk result ((lists : Lists) (before : List spec.Component) → HasTaken trees.old lists (keys_of (keyed template.now.key before)) → HasTaken trees.new lists (keys_of (keyed template.now.key (before ++ component_of component.now ∷ [])))) }
    ensures lines { OnOk result ((lists : Lists) (before : List spec.Component) → HasTaken trees.old lists (keys_of (keyed template.now.key before)) → Extends writer.old writer.new (flat_map spec.piece_lines (fate (template_of template.now) shown.now lists before (component_of component.now)))) }
{
    let Some(key) = key_of(alloc, &template.key, &component.lines)? else {
        unreachable!()
    };
    match trees.next(&key)? {
        Some(tree) => append_item(alloc, shown, &component.lines, component.end, tree, writer),
        None => Ok(()),
    }
}

// Puts the lines of a component that is to show a tree behind others: all from before but the last, and this.
fn append_item(
    alloc: Global,
    shown: &[(Name, bool)],
    lines: &[Line],
    end: &str,
    tree: &Tree,
    writer: &mut Writer,
) -> Result<(), Memory>
    requires { AreLines lines.now }
    ensures { OnOk result (Extends writer.old writer.new (plain (rewritten shown.now tree.now (lent lines.now)) ++ end.now ∷ [])) }
{
    match rewrite_lines(alloc, shown, lines, tree)? {
        Some(new) => append_made(&new, writer)?,
        None => append_kept(lines, writer)?,
    }
    writer.append(end)
}

// Puts lines that were rewritten behind others.
fn append_made(lines: &[NewLine], writer: &mut Writer) -> Result<(), Memory>
    ensures { OnOk result (Extends writer.old writer.new (all_bytes lines.now)) }
{
    for line in lines {
        writer.append(line.text())?;
    }
    Ok(())
}

// Puts lines that stay behind others.
fn append_kept(lines: &[Line], writer: &mut Writer) -> Result<(), Memory>
    ensures { OnOk result (Extends writer.old writer.new (plain (lent lines.now))) }
{
    for line in lines {
        writer.append(line.text)?;
    }
    Ok(())
}

// Puts the new components behind other lines, by their keys and places.
fn append_new(
    alloc: Global,
    template: &Template,
    shown: &[(Name, bool)],
    trees: &NewTrees,
    writer: &mut Writer,
) -> Result<(), Memory>
    requires word { IsWord template.now.key }
    requires front { AreLines template.now.front.items }
    requires more { AreLines template.now.more.items }
    requires taken { (lists : Lists) × ((cs : List spec.Component) × HasTaken trees.now lists (keys_of (keyed template.now.key cs))) }
    ensures { OnOk result ((lists : Lists) (cs : List spec.Component) → HasTaken trees.now lists (keys_of (keyed template.now.key cs)) → Extends writer.old writer.new (flat_map spec.piece_lines (items_for (template_of template.now) shown.now (added name_cmp (keyed template.now.key cs) lists)))) }
{
    for edge in 0..trees.lists.len() {
        let key = trees.lists[edge].0;
        append_with_key(alloc, template, shown, key, trees.left(edge), writer)?;
    }
    Ok(())
}

// Those with a key, which are to show some trees.
fn append_with_key(
    alloc: Global,
    template: &Template,
    shown: &[(Name, bool)],
    key: &Name,
    trees: &[&Tree],
    writer: &mut Writer,
) -> Result<(), Memory>
    requires word { IsWord template.now.key }
    requires front { AreLines template.now.front.items }
    requires more { AreLines template.now.more.items }
    ensures { OnOk result (Extends writer.old writer.new (flat_map spec.piece_lines (items_for (template_of template.now) shown.now (fresh name_cmp key.now (map (λ t. t.now) trees.now))))) }
{
    for tree in trees {
        append_new_item(alloc, template, shown, key, tree, writer)?;
    }
    Ok(())
}

// One of them.
fn append_new_item(
    alloc: Global,
    template: &Template,
    shown: &[(Name, bool)],
    key: &Name,
    tree: &Tree,
    writer: &mut Writer,
) -> Result<(), Memory>
    requires word { IsWord template.now.key }
    requires front { AreLines template.now.front.items }
    requires more { AreLines template.now.more.items }
    ensures { OnOk result (Extends writer.old writer.new (spec.lines_of (component_for (template_of template.now) shown.now (key.now, None, tree.now)))) }
{
    let text = key_text(alloc, &template.key, key)?;
    let lines = blank_lines(alloc, template, key_line(&text))?;
    append_item(alloc, shown, &lines, template.end, tree, writer)
}

// The lines of a component with nothing but the line of its key, but for the last.
fn blank_lines<'a>(
    alloc: Global,
    template: &'a Template,
    key: Line<'a>,
) -> Result<Vec<Line<'a>>, Memory>
    ensures { IfOk result (λ lines. lent lines.items ≡ lent template.now.front.items ++ line_of key.entry ∷ lent template.now.more.items) }
{
    let mut lines = Vec::with_capacity(alloc, template.front.len())?;
    append_copies(&mut lines, &template.front)?;
    lines.push(key)?;
    append_copies(&mut lines, &template.more)?;
    Ok(lines)
}

// The line of a key, from its text.
fn key_line(text: &str) -> Line<'_>
    ensures { (name key : NameValue) → IsWord name → text.now ≡ (new_line name key).0 → line_of result ≡ new_line name key }
{
    Line {
        text,
        parts: parts(text),
    }
}

// Puts copies of lines behind others.
fn append_copies<'a>(lines: &mut Vec<Line<'a>>, more: &'a [Line]) -> Result<(), Memory>
    ensures { OnOk result (lent lines.new.items ≡ lent lines.old.items ++ lent more.now) }
{
    for line in more {
        lines.push(Line {
            text: line.text,
            parts: line.parts,
        })?;
    }
    Ok(())
}

// The text of the line of a key.
fn key_text(alloc: Global, name: &Name, key: &Name) -> Result<String, Memory>
    ensures { IfOk result (λ line. string_bytes line ≡ (new_line name.now key.now).0) }
{
    let mut line = String::from_str(alloc, name.text())?;
    line.push(':')?;
    match str::from_utf8(&escape(alloc, key)?) {
        Ok(value) => line.push_str(value)?,
        Err(_) => unreachable!(),
    }
    Ok(line)
}
