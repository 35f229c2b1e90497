//! The components of a file as items.
ghost use Rattle.std.specs.Prelude.{◌≡◌, ◌++◌, ◌∷◌, [], All, IfOk, IfErr, OnOk, MatchOption, T};
ghost use Rattle.hm_tree.specs.Nodes.{are_edges};
ghost use Rattle.hm_lines_cards.specs.Lent.{AreLines};
ghost use Rattle.hm_lines_files.specs.Components as spec;
ghost use Rattle.hm_lines_files.specs.Reading.{IsItem, IsItemFault};
ghost use Rattle.hm_lines_files.specs.Lent.{component_of, layout_of, pieces_of, HaveLines};

use crate::component::{Component, Layout, Piece};
use crate::fault::ItemFault;
use hm_lines_cards::{card_of, key_of};
use hm_tree::{Memory, Name, Tree};
use std::alloc::Global;

/// The components of a file as its items, in their order: the text of a property is the key of each, and some properties are
/// shown, whose names rise.
pub fn items_of(
    alloc: Global,
    key: &Name,
    shown: &[(Name, bool)],
    layout: &Layout,
) -> Result<Vec<(Name, Tree)>, ItemFault>
    requires names { T (are_edges shown.now) }
    requires lines { HaveLines layout.now.pieces.items }
    ensures items { IfOk result (λ items. items.items ≡ spec.items_of key.now shown.now (spec.components (layout_of layout.now))) }
    ensures keyed { OnOk result (All (spec.HasKey key.now) (spec.components (layout_of layout.now))) }
    ensures fault { IfErr result (IsItemFault key.now (spec.components (layout_of layout.now))) }
{
    items(alloc, key, shown, &layout.pieces)
}

// The components among pieces as items, in their order, if each has a key.
fn items(
    alloc: Global,
    key: &Name,
    shown: &[(Name, bool)],
    pieces: &[Piece],
) -> Result<Vec<(Name, Tree)>, ItemFault>
    requires names { T (are_edges shown.now) }
    requires lines { HaveLines pieces.now }
    ensures items { IfOk result (λ items. items.items ≡ spec.items_of key.now shown.now (spec.components_of (pieces_of pieces.now))) }
    ensures keyed { IfOk result (λ items. All (spec.HasKey key.now) (spec.components_of (pieces_of pieces.now))) }
    ensures keyless { IfErr result (IsItemFault key.now (spec.components_of (pieces_of pieces.now))) }
{
    let mut items = Vec::new(alloc);
    for place in 0..pieces.len() {
        if let Piece::Item(component) = &pieces[place] {
            match item(alloc, key, shown, component)? {
                Some(item) => items.push(item)?,
                None => {
                    return Err(ItemFault::NoKey {
                        number: items.len() + 1,
                    });
                }
            }
        }
    }
    Ok(items)
}

// A component as an item, if it has a key.
fn item(
    alloc: Global,
    key: &Name,
    shown: &[(Name, bool)],
    component: &Component,
) -> Result<Option<(Name, Tree)>, Memory>
    requires names { T (are_edges shown.now) }
    requires lines { AreLines component.now.lines.items }
    ensures { IfOk result (IsItem key.now shown.now (component_of component.now)) }
{
    match key_of(alloc, key, &component.lines)? {
        Some(key) => Ok(Some((key, card_of(alloc, shown, &component.lines)?))),
        None => Ok(None),
    }
}
