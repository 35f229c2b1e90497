//! Address books of files that are opened.
ghost use Rattle.std.specs.Prelude.{◌≡◌, All, IfOk, IfErr, OnOk, T};
ghost use Rattle.hm_tree.specs.Nodes.{are_edges};
ghost use Rattle.hm_book_items.specs.ItemTrees.{HasLists};
ghost use Rattle.hm_lines.specs.Content.{IsWord};
ghost use Rattle.hm_format.specs.Formats.{deepest};
ghost use Rattle.hm_lines_cards.specs.Lent.{AreLines};
ghost use Rattle.hm_lines_files.specs.Components.{components, HasKey, all_lines, items_of};
ghost use Rattle.hm_lines_files.specs.Reading.{IsTreeOf};
ghost use Rattle.hm_lines_files.specs.Lent.{texts, layout_of, template_of, HaveLines};
ghost use Rattle.hm_lines_files.specs.Faults.{IsBookFault, IsKeyFault};
ghost use Rattle.hm_lines_files.specs.WrittenFiles.{IsWritten, ListsRise};

use crate::component::{Layout, Template};
use crate::fault::ItemFault;
use crate::items::items_of;
use crate::rewriting::rewrite;
use hm_book_items::{ItemTreeFault, item_lists, item_tree};
use hm_format::FormatFault;
use hm_tree::{DEEPEST, Memory, Name, Tree};
use std::alloc::Global;

/// The address book of a file, by its layout, or why it has none.
pub fn book_of(
    alloc: Global,
    key: &Name,
    shown: &[(Name, bool)],
    layout: Layout,
) -> Result<Tree, FormatFault>
    requires names { T (are_edges shown.now) }
    requires lines { HaveLines layout.pieces.items }
    ensures tree { IfOk result (IsTreeOf key.now shown.now (components (layout_of layout.entry)) deepest) }
    ensures fault { IfErr result (IsBookFault key.now shown.now (components (layout_of layout.entry))) }
{
    let items = items(alloc, key, shown, layout)?;
    match item_tree(alloc, items, DEEPEST) {
        Ok(tree) => Ok(tree),
        Err(ItemTreeFault::TooDeep { depth }) => Err(FormatFault::TooDeep { depth }),
        Err(ItemTreeFault::Memory) => Err(FormatFault::Memory),
    }
}

// The components of a file as items. The layout is let go, so that the tree can have the room of its lines.
fn items(
    alloc: Global,
    key: &Name,
    shown: &[(Name, bool)],
    layout: Layout,
) -> Result<Vec<(Name, Tree)>, FormatFault>
    requires names { T (are_edges shown.now) }
    requires lines { HaveLines layout.pieces.items }
    ensures items { IfOk result (λ made. made.items ≡ items_of key.now shown.now (components (layout_of layout.entry))) }
    ensures keyed { OnOk result (All (HasKey key.now) (components (layout_of layout.entry))) }
    ensures fault { IfErr result (IsKeyFault key.now (components (layout_of layout.entry))) }
{
    match items_of(alloc, key, shown, &layout) {
        Ok(items) => Ok(items),
        Err(ItemFault::NoKey { number }) => Err(FormatFault::NoKey { number }),
        Err(ItemFault::Memory) => Err(FormatFault::Memory),
    }
}

/// The bytes of an address book behind those from before, which stay where their lines do. The layout is that of the lines from
/// before that aren't empty.
pub fn write_layout(
    alloc: Global,
    template: &Template,
    shown: &[(Name, bool)],
    layout: &Layout,
    lines: &[&str],
    tree: &Tree,
    before: &[u8],
) -> Result<Vec<u8>, Memory>
    requires word { IsWord template.now.key }
    requires lines { HaveLines layout.now.pieces.items }
    requires front { AreLines template.now.front.items }
    requires more { AreLines template.now.more.items }
    requires keyed { All (HasKey template.now.key) (components (layout_of layout.now)) }
    requires old { texts lines.now ≡ all_lines (layout_of layout.now) }
    requires lists { HasLists tree.now }
    requires rise { ListsRise tree.now }
    ensures { IfOk result (λ bytes. IsWritten (template_of template.now) shown.now tree.now (layout_of layout.now) before.now bytes.items) }
{
    let lists = item_lists(alloc, tree)?;
    match rewrite(alloc, template, shown, layout, lines, &lists)? {
        Some(text) => Ok(text),
        None => Ok(Vec::from_slice(alloc, before)?),
    }
}
