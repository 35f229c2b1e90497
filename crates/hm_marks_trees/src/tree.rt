//! The tree of what stands in a folder.
ghost use Rattle.std.specs.Prelude.{◌≡◌, ◌++◌, ◌∷◌, [], IfOk, OnOk};
ghost use Rattle.hm_book_items.specs.ItemTrees.{IsItemTree};
ghost use Rattle.hm_marks.specs.FolderTrees.{IsContentsTree, IsLinkTree, IsFolderTree, folder_name, url_name};
ghost use Rattle.hm_marks_trees.specs.Nodes.{plain, contents, view, IsItemOf};

use crate::node::Node;
use hm_book_items::item_tree;
use hm_tree::{Memory, Name, Tree};
use hm_tree_parts::{under, value};
use std::alloc::Global;

/// The tree of links and folders.
#[cycle(trees)]
pub fn tree_of(alloc: Global, nodes: Vec<Node>) -> Result<Tree, Memory>
    ensures { IfOk result (IsContentsTree plain (contents nodes.items)) }
{
    let mut items = room(alloc, nodes.len())?;
    for node in nodes {
        let item = item_of(alloc, node)?;
        add(&mut items, item)?;
    }
    items_tree(alloc, items)
}

// The tree of items, however deep it is: what it is allowed to be was looked at before.
fn items_tree(alloc: Global, items: Vec<(Name, Tree)>) -> Result<Tree, Memory>
    ensures { IfOk result (IsItemTree items.items) }
{
    match item_tree(alloc, items, usize::MAX) {
        Ok(tree) => Ok(tree),
        Err(_) => Err(Memory),
    }
}

// No items, with room for so many.
fn room(alloc: Global, count: usize) -> Result<Vec<(Name, Tree)>, Memory>
    ensures { IfOk result (λ items. items.items ≡ []) }
{
    Ok(Vec::with_capacity(alloc, count)?)
}

// Puts an item behind others.
fn add(items: &mut Vec<(Name, Tree)>, item: (Name, Tree)) -> Result<(), Memory>
    ensures { OnOk result (items.new.items ≡ items.old.items ++ item ∷ []) }
{
    Ok(items.push(item)?)
}

// The key and the tree of a link or a folder.
#[cycle(trees)]
fn item_of(alloc: Global, node: Node) -> Result<(Name, Tree), Memory>
    ensures { IfOk result (IsItemOf (view node)) }
{
    match node {
        Node::Link(key, address) => Ok(link_item(alloc, key, address)?),
        Node::Folder(key, inside) => {
            let tree = tree_of(alloc, inside)?;
            Ok(folder_item(alloc, key, tree)?)
        }
    }
}

// The key and the tree of a link.
fn link_item(alloc: Global, key: Name, address: Name) -> Result<(Name, Tree), Memory>
    ensures key { IfOk result (λ item. item.0 ≡ key) }
    ensures tree { IfOk result (λ item. IsLinkTree address item.1) }
{
    let value = value(alloc, address)?;
    let tree = under(url(alloc)?, value)?;
    Ok((key, tree))
}

// The key and the tree of a folder, by the tree of what stands in it.
fn folder_item(alloc: Global, key: Name, inside: Tree) -> Result<(Name, Tree), Memory>
    ensures key { IfOk result (λ item. item.0 ≡ key) }
    ensures tree { IfOk result (λ item. IsFolderTree inside item.1) }
{
    let tree = under(folder(alloc)?, inside)?;
    Ok((key, tree))
}

// The name below which a link's tree has its address.
fn url(alloc: Global) -> Result<Name, Memory>
    ensures { IfOk result (λ name. name ≡ url_name) }
{
    Name::from_text(alloc, "url")
}

// The name below which a folder's tree has that of what stands in it.
fn folder(alloc: Global) -> Result<Name, Memory>
    ensures { IfOk result (λ name. name ≡ folder_name) }
{
    Name::from_text(alloc, "folder")
}
