//! How deep a tree of lists will be.
//!
//! A list of n items is at least n edges deep. Many items with one key would so be a tree too deep to be taken apart again
//! by calls that call themselves for each child; its depth is told from the keys and from how deep each item is.
ghost use Rattle.std.specs.Prelude.{◌≡◌, ℕ, ◌+◌, T, IfOk, OnOk};
ghost use Rattle.hm_tree.specs.Nodes.{are_texts};
ghost use Rattle.hm_book_items.specs.ItemTrees.{list_depth, lists_depth};
ghost use Rattle.hm_book_items.specs.Runs.{runs, list_first, first_depth};

use hm_tree::{Memory, Name, Tree};

/// What is as deep as a tree: a tree itself, or the depth of one that isn't built yet.
pub trait Deep {
    /// Its depth.
    ghost deep: { Self → ℕ };

    /// How many edges lie one below another in it.
    fn depth(&self) -> usize
        ensures { result ≡ deep self.now };
}

impl Deep for Tree {
    ghost use Rattle.hm_tree.specs.Nodes.{depth};

    ghost deep = { λ t. depth t };

    fn depth(&self) -> usize {
        Tree::depth(self)
    }
}

impl Deep for usize {
    ghost deep = { λ n. n };

    fn depth(&self) -> usize {
        *self
    }
}

/// The depth of the tree that has the lists of the runs of items below their keys.
pub fn depth_of_runs<D: Deep>(items: &[(Name, D)]) -> Result<usize, Memory>
    ensures depth { IfOk result (λ depth. depth ≡ lists_depth D.deep (runs items.now)) }
    ensures texts { OnOk result (T (are_texts items.now)) }
{
    let mut deepest: usize = 0;
    let mut list: usize = 0;
    for at in (0..items.len()).rev() {
        let item = &items[at];
        let _text = item.0.text();
        let others = depth_behind(&item.0, &items[at + 1..], list);
        list = one_more(others.max(item.1.depth()))?;
        deepest = deepest.max(one_more(list)?);
    }
    Ok(deepest)
}

// The depth of the list of those items behind an item that have its key, where that of the first run there is known.
fn depth_behind<D: Deep>(name: &Name, items: &[(Name, D)], depth: usize) -> usize
    requires { depth ≡ first_depth D.deep (runs items.now) }
    ensures { result ≡ list_depth D.deep (list_first name.now (runs items.now)) }
{
    let Some(next) = items.first() else {
        return 0;
    };
    if next.0.same(name) { depth } else { 0 }
}

// A depth of one edge more. One that isn't a number of a machine is of no tree that memory can hold.
fn one_more(depth: usize) -> Result<usize, Memory>
    ensures { IfOk result (λ more. more ≡ depth + 1) }
{
    depth.checked_add(1).ok_or(Memory)
}
