//! The tree of a whole file of bookmarks.
ghost use Rattle.std.specs.Prelude.{◌≡◌, ◌∷◌, [], ℕ, IfOk, Some, Err};
ghost use Rattle.hm_tree.specs.Nodes.{edges};
ghost use Rattle.hm_book_items.specs.declared.fault.ItemTreeFault.TheVariants.{TooDeep};
ghost use Rattle.hm_marks_schema.specs.Schema.{bar_name, other_name};
ghost use Rattle.hm_marks_trees.specs.Nodes.{contents};
ghost use Rattle.hm_marks_trees.specs.Trees.{AreShallow, AreOver};

use crate::measures::over_limits;
use crate::node::Node;
use crate::tree::tree_of;
use hm_book_items::ItemTreeFault;
use hm_tree::{Memory, Name, Tree};
use std::alloc::Global;

/// The tree of a file with these links and folders in the two folders at its top. Where more folders nest than may, the fault
/// tells how many do, and else how deep the tree is, where it is deeper than a tree may be. It isn't built then.
pub fn bookmarks_tree(
    alloc: Global,
    bar: Vec<Node>,
    other: Vec<Node>,
) -> Result<Tree, ItemTreeFault>
    ensures tree { IfOk result (AreShallow (contents bar.items) (contents other.items)) }
    ensures too_deep { (found : ℕ) → result ≡ Err (TooDeep found) → AreOver (contents bar.items) (contents other.items) (Some found) }
{
    if let Some(depth) = over_limits(alloc, &bar, &other)? {
        return Err(ItemTreeFault::TooDeep { depth });
    }
    let bar_tree = tree_of(alloc, bar)?;
    let other_tree = tree_of(alloc, other)?;
    Ok(both(alloc, bar_tree, other_tree)?)
}

// The tree with the two at its top.
fn both(alloc: Global, bar: Tree, other: Tree) -> Result<Tree, Memory>
    ensures { IfOk result (λ tree. edges tree ≡ (bar_name, bar) ∷ (other_name, other) ∷ []) }
{
    let mut edges = Vec::with_capacity(alloc, 2)?;
    edges.push((Name::from_text(alloc, "bar")?, bar))?;
    edges.push((Name::from_text(alloc, "other")?, other))?;
    Tree::of_edges(edges)
}
