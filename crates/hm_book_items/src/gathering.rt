//! Gathering items below their keys.
//!
//! Items are sorted by their keys, so that those of a key stand together. Files mostly have them so or nearly so already,
//! which takes the sort no longer than to look at each.
ghost use Rattle.std.specs.Prelude.{◌≡◌, ℕ, T, IfOk, Err, IsSortedByKey, reverse};
ghost use Rattle.hm_tree.specs.Names.{Name as NameValue, name_cmp};
ghost use Rattle.hm_tree.specs.Nodes.{edges, are_edges};
ghost use Rattle.hm_book_items.specs.Items.{of_key};
ghost use Rattle.hm_book_items.specs.ItemTrees.{AreLists, IsShallow, IsTooDeep, IsDepthOfLists};
ghost use Rattle.hm_book_items.specs.Runs.{runs, IsListTaken};
ghost use Rattle.hm_book_items.specs.declared.fault.ItemTreeFault.TheVariants.{TooDeep};

use crate::depths::{Deep, depth_of_runs};
use crate::fault::ItemTreeFault;
use hm_tree::{Memory, Name, Tree};
use hm_tree_parts::put_first;
use std::alloc::Global;

/// The tree of a file with these items, in file order: below each key stands the list of the items with it. It isn't
/// built where it would be deeper than `deepest` edges.
pub fn item_tree(
    alloc: Global,
    items: Vec<(Name, Tree)>,
    deepest: usize,
) -> Result<Tree, ItemTreeFault>
    ensures tree { IfOk result (IsShallow items.items deepest) }
    ensures too_deep { (found : ℕ) → result ≡ Err (TooDeep found) → IsTooDeep items.items deepest found }
{
    let sorted = by_key(items)?;
    let depth = depth_of_runs(&sorted)?;
    if depth > deepest {
        return Err(ItemTreeFault::TooDeep { depth });
    }
    Ok(tree_of(alloc, sorted)?)
}

/// How deep the tree of a file will be whose items have these keys, in file order, and are so deep. It isn't built.
pub fn depth_of_items<D: Deep + Drop>(items: Vec<(Name, D)>) -> Result<usize, Memory>
    ensures { IfOk result (λ depth. IsDepthOfLists D.deep items.items depth) }
{
    let sorted = by_key(items)?;
    depth_of_runs(&sorted)
}

// The items in the order of their keys, and those of a key in the order that they had.
fn by_key<D: Drop>(items: Vec<(Name, D)>) -> Result<Vec<(Name, D)>, Memory>
    ensures rise { IfOk result (λ sorted. IsSortedByKey (λ item. item.0) name_cmp sorted.items) }
    ensures each { IfOk result (λ sorted. (k : NameValue) → of_key name_cmp k sorted.items ≡ of_key name_cmp k items.items) }
{
    let mut sorted = items;
    sorted.sort_by(|one, two| one.0.order(&two.0))?;
    Ok(sorted)
}

// The tree that has the lists of the runs below their keys. It is built from its end, where an item goes before those of
// its key that stand behind it.
fn tree_of(alloc: Global, items: Vec<(Name, Tree)>) -> Result<Tree, Memory>
    requires { T (are_edges (runs items.items)) }
    ensures { IfOk result (λ tree. AreLists (edges tree) (runs items.items)) }
{
    let mut left = items;
    let mut edges = Vec::with_capacity(alloc, left.len())?;
    while let Some((name, item)) = left.pop() {
        let list = take_list(alloc, &mut edges, &name)?;
        edges.push((name, put_first(item, list)?))?;
    }
    edges.reverse();
    Tree::of_edges(edges)
}

// The list below a key that stands last, which is taken off; the empty one where another key stands there.
fn take_list(alloc: Global, edges: &mut Vec<(Name, Tree)>, name: &Name) -> Result<Tree, Memory>
    ensures { IfOk result (IsListTaken name.now (reverse edges.old.items) (reverse edges.new.items)) }
{
    let Some((key, list)) = edges.pop() else {
        return Ok(Tree::empty(alloc));
    };
    if key.same(name) {
        return Ok(list);
    }
    edges.push((key, list))?;
    Ok(Tree::empty(alloc))
}
