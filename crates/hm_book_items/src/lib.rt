//! Files that are lists of items with keys, as an address book or a calendar is: their trees, and which items survive
//! where a new tree is written over an old file.
//!
//! Such a file has items in an order, each with a key, and what it shows of each is a tree. Its own tree has below each
//! key the list of the items with that key, in file order (`specs/Items`, `specs/ItemTrees`): so two people of one name
//! are two items of one list. `item_tree` makes that tree of items, if it isn't too deep, and `item_lists` takes a tree
//! apart into its lists, for the file to be written anew. Items are sorted by their keys, stably, so that those of a
//! key are a run; how deep the tree of these runs will be is told first (`depths`), and then it is made in one walk
//! from its end (`gathering`); it is taken apart in `listing`.
//!
//! Where a new tree is written over the file, the item with a key at a place survives where the new list at that key is
//! long enough; survivors keep their order, and new items stand behind them, by key and then by place. `plan` tells
//! this by numbers, for any format, and `next_place` of one old item after another (`wanted`, `planned`). What is
//! written so reads back as the new tree, and a file whose tree stays has its items as they are; a format that writes
//! single items lawfully therefore writes files lawfully. The laws are of one level of keys. It knows no format.
//!
//! Proved: `plan` is given the keys of a file's items, and for each key of the new tree how many items it is to
//! have; it tells which old items survive, in which order, and which are new (`specs/Items`). `next_place` tells it
//! of one old item after another, over counts that `no_counts` begins, and `NewTrees` gives each old item the tree
//! that it is to show, and then the trees that are left (`specs/Taken`). What is written so reads back as the tree,
//! and where the tree stays so do all items (`proofs/ReadBack`), so with a lawful writing of one item a whole file
//! is written lawfully (`proofs/Fitting`). `item_tree` gives the tree of a file's items; where that would be deeper
//! than allowed it is never built: the answer is its depth. `depth_of_runs` gives the depth of such a tree from the
//! keys and from how deep each item is, also where the items aren't built yet, and `depth_of_items` that of items in
//! any order. `item_lists` takes a tree of lists apart; the tree is lent, and none of it is copied. Items have one such tree at the most, it can be taken apart,
//! and its lists are known from it.
#![tactic(auto)]

mod depths;
mod fault;
mod gathering;
mod listing;
mod new_trees;
mod planned;
mod wanted;

pub use depths::{Deep, depth_of_runs};
pub use fault::ItemTreeFault;
pub use gathering::{depth_of_items, item_tree};
pub use listing::item_lists;
pub use new_trees::NewTrees;
pub use planned::{NewItem, next_place, no_counts, plan};
