//! Taking a tree of items apart.
ghost use Rattle.std.specs.Prelude.{IfOk};
ghost use Rattle.hm_tree.specs.Nodes.{edges};
ghost use Rattle.hm_book_items.specs.ItemTrees.{HasLists, AreLists};
ghost use Rattle.hm_book_items.specs.Lent.{lent_lists};

use hm_tree::{Memory, Name, Tree};
use hm_tree_parts::lent_items;
use std::alloc::Global;

/// The items of the list below each key of a tree, in the order of the keys.
pub fn item_lists<'a>(
    alloc: Global,
    tree: &'a Tree,
) -> Result<Vec<(&'a Name, Vec<&'a Tree>)>, Memory>
    requires { HasLists tree.now }
    ensures { IfOk result (λ lists. AreLists (edges tree.now) (lent_lists lists.items)) }
{
    let mut lists = Vec::with_capacity(alloc, tree.count())?;
    for edge in tree.edges() {
        lists.push((&edge.0, lent_items(&edge.1)?))?;
    }
    Ok(lists)
}
