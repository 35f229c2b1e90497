//! How many folders nest in a tree of bookmarks.
ghost use Rattle.std.specs.Prelude.{◌≡◌, ◌<◌, Some, length, slice_get};
ghost use Rattle.hm_tree.specs.Names.{Name as NameValue};
ghost use Rattle.hm_tree.specs.Nodes.{edges};
ghost use Rattle.hm_schema.specs.Membership.{IsMemberTree};
ghost use Rattle.hm_tree_parts.specs.Lists.{ListOf};
ghost use Rattle.hm_marks_schema.specs.Schema.{marks_schema};
ghost use Rattle.hm_marks_schema.specs.Members.{IsAt};
ghost use Rattle.hm_marks_schema.specs.Nesting.{marks_over, folders_deep, folders_in, at_folder, at_list, at_item};

use crate::parts::{ItemTree, folders_of, item_of, next_item};
use hm_tree::{DEEPEST, Tree};

/// So many folders may nest.
pub const MOST_FOLDERS: usize = 50;

/// Where more folders nest in a tree of bookmarks than may, how many do; else how deep the tree is, where it is too deep.
pub fn over_limits(tree: &Tree) -> Option<usize>
    requires { IsMemberTree marks_schema tree.now }
    ensures { result ≡ marks_over tree.now }
{
    let nested = nested_in_both(tree);
    if nested > MOST_FOLDERS {
        return Some(nested);
    }
    let depth = tree.depth();
    if depth > DEEPEST { Some(depth) } else { None }
}

// How many folders nest in the two at the top.
fn nested_in_both(tree: &Tree) -> usize
    requires { IsMemberTree marks_schema tree.now }
    ensures { result ≡ folders_deep tree.now }
{
    let (bar, other) = folders_of(tree);
    nested_in_folder(bar).max(nested_in_folder(other))
}

// How many folders nest in a folder.
#[cycle(nesting)]
fn nested_in_folder(folder: &Tree) -> usize
    requires { IsAt 1 folder.now }
    ensures { result ≡ folders_in at_folder folder.now.shape }
{
    let mut most = 0;
    for place in 0..folder.count() {
        most = nested_in_list(list_at(folder, place)).max(most);
    }
    most
}

// How many folders nest in the items of a list.
#[cycle(nesting)]
fn nested_in_list(list: &Tree) -> usize
    requires { ListOf (IsAt 3) list.now }
    ensures { result ≡ folders_in at_list list.now.shape }
{
    let mut most = 0;
    let mut rest = list;
    while let Some((item, others)) = next_item(rest) {
        most = nested_in_item(item).max(most);
        rest = others;
    }
    most
}

// How many folders nest in a folder, and that one; none in a link.
#[cycle(nesting)]
fn nested_in_item(item: &Tree) -> usize
    requires { IsAt 3 item.now }
    ensures { result ≡ folders_in at_item item.now.shape }
{
    match item_of(item) {
        ItemTree::Folder(folder) => {
            let _more = item.depth();
            nested_in_folder(folder) + 1
        }
        ItemTree::Link(_) => 0,
    }
}

// The list at a place of a folder.
fn list_at(folder: &Tree, place: usize) -> &Tree
    requires member { IsAt 1 folder.now }
    requires within { place < length (edges folder.now) }
    ensures list { ListOf (IsAt 3) result.now }
    ensures there { (k : NameValue) × (slice_get (edges folder.now) place ≡ Some (k, result.now)) }
{
    folder.edge(place).1
}
