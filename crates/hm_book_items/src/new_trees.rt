//! The trees that items are to show.
ghost use Rattle.std.specs.Prelude.{◌≡◌, ◌<◌, ◌++◌, ◌∷◌, [], T, IfOk, OnOk, List, map, length, get_or, slice_get, drop};
ghost use Rattle.std.specs.FinMap.{is_sorted};
ghost use Rattle.std.specs.Option.{option_map};
ghost use Rattle.hm_tree.specs.Names.{Name as NameValue, name_cmp};
ghost use Rattle.hm_book_items.specs.Items.{of_key, below_key};
ghost use Rattle.hm_book_items.specs.Plans.{numbered, wanted_of as wanted_in};
ghost use Rattle.hm_book_items.specs.LentKeys.{lent_counts};
ghost use Rattle.hm_book_items.specs.Lent.{lent_lists};
ghost use Rattle.hm_book_items.specs.ItemTrees.{Lists};
ghost use Rattle.hm_book_items.specs.Taken.{HasTaken, list_at};

use crate::planned::{next_place, no_counts};
use hm_tree::{Memory, Name, Tree};
use std::alloc::Global;

/// The trees that items are to show, by their keys, of which those from before take one after another.
#[derive(Drop)]
pub struct NewTrees<'l, 'a> {
    pub lists: &'l [(&'a Name, Vec<&'a Tree>)],
    // How many trees there are with each key, and how many items from before have it.
    wanted: Vec<(&'a Name, usize)>,
    counts: Vec<usize>,
    // Where the key of the item before stands; most files have their items in the order of the keys.
    near: usize,
}

impl<'l, 'a> NewTrees<'l, 'a> {
    pub fn new(
        alloc: Global,
        lists: &'l [(&'a Name, Vec<&'a Tree>)],
    ) -> Result<NewTrees<'l, 'a>, Memory>
        requires { T (is_sorted name_cmp (lent_lists lists.now)) }
        ensures { IfOk result (λ trees. HasTaken trees (lent_lists lists.now) []) }
    {
        let wanted = wanted_of(alloc, lists)?;
        let counts = no_counts(alloc, &wanted)?;
        Ok(NewTrees {
            lists,
            wanted,
            counts,
            near: 0,
        })
    }

    /// The tree that the next item from before is to show, by its key, if there is one left.
    pub fn next(&mut self, key: &Name) -> Result<Option<&'a Tree>, Memory>
        requires { (lists : Lists) × ((keys : List NameValue) × HasTaken self.old lists keys) }
        ensures taken { OnOk result ((lists : Lists) (keys : List NameValue) → HasTaken self.old lists keys → HasTaken self.new lists (keys ++ key.now ∷ [])) }
        ensures tree { IfOk result (λ tree. (lists : Lists) (keys : List NameValue) → HasTaken self.old lists keys → option_map (λ t. t.now) tree ≡ slice_get (below_key name_cmp key.now lists) (length (of_key name_cmp key.now (numbered 0 keys)))) }
    {
        match next_place(&self.wanted, key, self.near, &mut self.counts)? {
            Some((edge, place)) => {
                self.near = edge;
                Ok(Some(self.lists[edge].1[place]))
            }
            None => Ok(None),
        }
    }

    /// The trees of a list that no item from before took.
    pub fn left(&self, edge: usize) -> &'l [&'a Tree]
        requires within { edge < length self.now.lists.now }
        requires taken { (lists : Lists) × ((keys : List NameValue) × HasTaken self.now lists keys) }
        ensures { (lists : Lists) (keys : List NameValue) → HasTaken self.now lists keys → map (λ t. t.now) result.now ≡ drop (length (of_key name_cmp (list_at lists edge).0 (numbered 0 keys))) (list_at lists edge).1 }
    {
        let list = &self.lists[edge].1;
        let (_, left) = list.split_at(self.counts[edge].min(list.len()));
        left
    }
}

// How many trees there are with each key.
fn wanted_of<'a>(
    alloc: Global,
    lists: &[(&'a Name, Vec<&'a Tree>)],
) -> Result<Vec<(&'a Name, usize)>, Memory>
    ensures { IfOk result (λ wanted. lent_counts wanted.items ≡ wanted_in (lent_lists lists.now)) }
{
    let mut wanted = Vec::with_capacity(alloc, lists.len())?;
    for list in lists {
        wanted.push((list.0, list.1.len()))?;
    }
    Ok(wanted)
}
