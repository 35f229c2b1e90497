//! A link or a folder that is sought in a folder, by the tree of what is to stand there and by its key.
ghost use Rattle.std.specs.Prelude.{IsTrue};
ghost use Rattle.hm_tree.specs.Nodes.{Tree as TreeValue};
ghost use Rattle.hm_marks.specs.Among.{IsAmong};
ghost use Rattle.hm_marks.specs.FolderTrees.{IsLinkTree};
ghost use Rattle.hm_marks_schema.specs.Members.{IsAt};
ghost use Rattle.hm_marks_schema.specs.Sought.{AreItemsAt, IsFolderAt};

use crate::parts::{ItemTree, item_of, next_item};
use hm_tree::{Name, Tree};

/// What is known of the folders with a key.
#[derive(Clone, Copy)]
pub enum FolderAt<'a> {
    /// There is none.
    Nowhere,
    /// There is one and no other item with the key: the tree of what is to stand in it.
    Only(&'a Tree),
    /// There are several items with the key.
    Unknown,
}

/// Whether a link with a key and an address is certainly not among what is to stand in a folder. Of several items with the key
/// nothing is known.
pub fn lacks_link(tree: &Tree, key: &Name, address: &Name) -> bool
    requires { IsAt 1 tree.now }
    ensures { IsTrue result → (t : TreeValue) → IsLinkTree address.now t → IsAmong key.now tree.now t → ⊥ }
{
    match items_at(tree, key) {
        ItemsAt::Nothing => true,
        ItemsAt::One(item) => match item_of(item) {
            ItemTree::Link(found) => !found.same(address),
            ItemTree::Folder(_) => true,
        },
        ItemsAt::Several => false,
    }
}

/// The folder with a key among what is to stand in a folder.
pub fn folder_at<'a>(tree: &'a Tree, key: &Name) -> FolderAt<'a>
    requires { IsAt 1 tree.now }
    ensures { IsFolderAt key.now tree.now result }
{
    match items_at(tree, key) {
        ItemsAt::Nothing => FolderAt::Nowhere,
        ItemsAt::One(item) => match item_of(item) {
            ItemTree::Folder(inside) => FolderAt::Only(inside),
            ItemTree::Link(_) => FolderAt::Nowhere,
        },
        ItemsAt::Several => FolderAt::Unknown,
    }
}

// How many items a folder is to have with a key: none, this one, or several.
#[derive(Clone, Copy)]
enum ItemsAt<'a> {
    Nothing,
    One(&'a Tree),
    Several,
}

// The items with a key. They aren't counted past the first.
fn items_at<'a>(tree: &'a Tree, key: &Name) -> ItemsAt<'a>
    requires { IsAt 1 tree.now }
    ensures { AreItemsAt key.now tree.now result }
{
    let Some(list) = tree.child(key) else {
        return ItemsAt::Nothing;
    };
    match next_item(list) {
        None => ItemsAt::Nothing,
        Some((item, others)) => {
            if others.count() == 0 {
                ItemsAt::One(item)
            } else {
                ItemsAt::Several
            }
        }
    }
}
