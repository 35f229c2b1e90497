//! The parts of a tree of bookmarks.
ghost use Rattle.std.specs.Prelude.{MatchOption};
ghost use Rattle.hm_schema.specs.Membership.{IsMemberTree};
ghost use Rattle.hm_tree_parts.specs.Lists.{IsNil, ListOf};
ghost use Rattle.hm_marks_schema.specs.Schema.{marks_schema};
ghost use Rattle.hm_marks_schema.specs.Members.{IsAt, AreFoldersOf, IsNextItem};
ghost use Rattle.hm_marks_schema.specs.ItemTrees.{IsItemTree};

use hm_tree::{Name, Tree};
use hm_tree_parts::value_of;

/// The trees of the two folders at the top: the bar, and the others.
pub fn folders_of(tree: &Tree) -> (&Tree, &Tree)
    requires { IsMemberTree marks_schema tree.now }
    ensures { AreFoldersOf tree.now result.0.now result.1.now }
{
    (tree.edge(0).1, tree.edge(1).1)
}

/// What an item is to be: a folder, by the tree of what is to stand in it, or a link, by its address.
#[derive(Clone, Copy)]
pub enum ItemTree<'a> {
    Folder(&'a Tree),
    Link(&'a Name),
}

/// What an item is to be, by its tree.
pub fn item_of(tree: &Tree) -> ItemTree<'_>
    requires { IsAt 3 tree.now }
    ensures { IsItemTree tree.now result }
{
    let (name, below) = tree.edge(0);
    if name.text() == "folder" {
        ItemTree::Folder(below)
    } else {
        ItemTree::Link(value_of(below))
    }
}

// The first item of a list, and the list of the others; none where there is no item.
pub(crate) fn next_item(list: &Tree) -> Option<(&Tree, &Tree)>
    requires { ListOf (IsAt 3) list.now }
    ensures { MatchOption result (IsNil list.now) (λ parts. IsNextItem list.now parts.0.now parts.1.now) }
{
    if list.count() == 0 {
        return None;
    }
    Some((list.edge(0).1, list.edge(1).1))
}
