//! The changes of two trees, in one walk over both.
ghost use Rattle.std.specs.Prelude.{◌≡◌, ◌++◌, ◌∷◌, [], Some, IfOk, OnOk, map, option_copied};
ghost use Rattle.hm_tree.specs.States.{state};
ghost use Rattle.hm_changes.specs.Changes.{AreChanges, AddsChanges};

use crate::change::{Change, Turn};
use crate::taken::take_next;
use hm_tree::{Memory, Name, Path, Tree};
use std::alloc::Global;

/// The topmost paths that come and go from one tree to another, in their order: a path stands before its extensions,
/// and siblings in the order of their names.
pub fn changes_of(alloc: Global, old: &Tree, new: &Tree) -> Result<Vec<Change>, Memory>
    ensures { IfOk result (λ changes. AreChanges (state (Some old.now)) (state (Some new.now)) changes.items) }
{
    let mut here = Vec::new(alloc);
    let mut changes = Vec::new(alloc);
    append_changes(Some(old), Some(new), &mut here, &mut changes)?;
    Ok(changes)
}

// Appends the path of these names, as one that comes or goes.
fn append_change(turn: Turn, here: &Vec<&Name>, changes: &mut Vec<Change>) -> Result<(), Memory>
    ensures { OnOk result (changes.new.items ≡ changes.old.items ++ (record { turn = turn; path = map (λ n. n.now) here.now.items }) ∷ []) }
{
    let mut names = Vec::with_capacity(*here.allocator(), here.len())?;
    for name in here {
        names.push(name.copy()?)?;
    }
    changes.push(Change {
        turn,
        path: Path { names },
    })?;
    Ok(())
}

// Appends the changes of what stands at a path in two trees, if anything does, each from the root on.
fn append_changes<'a>(
    old: Option<&'a Tree>,
    new: Option<&'a Tree>,
    here: &mut Vec<&'a Name>,
    changes: &mut Vec<Change>,
) -> Result<(), Memory>
    ensures same_path { OnOk result (here.new.items ≡ here.old.items) }
    ensures appended { OnOk result (AddsChanges (option_copied old.entry) (option_copied new.entry) (map (λ n. n.now) here.old.items) changes.old.items changes.new.items) }
{
    let (tree, other) = match (old, new) {
        (Some(tree), Some(other)) => (tree, other),
        (Some(_), None) => return append_change(Turn::Deleted, here, changes),
        (None, Some(_)) => return append_change(Turn::Added, here, changes),
        (None, None) => return Ok(()),
    };
    let (mut olds, mut news) = (tree.edges(), other.edges());
    while let Some(taken) = take_next(olds, news) {
        here.push(taken.name)?;
        append_changes(taken.old, taken.new, here, changes)?;
        here.pop();
        olds = taken.olds;
        news = taken.news;
    }
    Ok(())
}
