//! How many paths come and go, and how many entries do.
ghost use Rattle.std.specs.Prelude.{◌≡◌, IfOk, map};
ghost use Rattle.hm_changes.specs.Numbers.{same_turn, is_entry, number_of, entries_of, names_changed, entries_changed};

use crate::change::{Change, Turn};
use hm_tree::{Memory, Name};
use std::alloc::Global;

// Whether a change is one of these.
fn is_turn(change: &Change, turn: Turn) -> bool
    ensures { result ≡ same_turn turn change.now.turn }
{
    change.turn == turn
}

// Whether an entry comes or goes, which is a child of the root.
fn is_entry(change: &Change) -> bool
    ensures { result ≡ is_entry change.now }
{
    change.path.names.len() == 1
}

/// How many paths come, or go.
pub fn number_of(turn: Turn, changes: &[Change]) -> usize
    ensures { result ≡ number_of turn changes.now }
{
    let mut number = 0;
    for change in changes {
        if is_turn(change, turn) {
            number += 1;
        }
    }
    number
}

/// How many entries come, or go.
pub fn entries_of(turn: Turn, changes: &[Change]) -> usize
    ensures { result ≡ entries_of turn changes.now }
{
    let mut number = 0;
    for change in changes {
        if is_entry(change) && is_turn(change, turn) {
            number += 1;
        }
    }
    number
}

// The entries below which a path comes or goes, each as often as one does.
fn names_changed<'a>(alloc: Global, changes: &'a [Change]) -> Result<Vec<&'a Name>, Memory>
    ensures { IfOk result (λ names. map (λ n. n.now) names.items ≡ names_changed changes.now) }
{
    let mut names = Vec::new(alloc);
    for change in changes {
        if let [name, _, ..] = change.path.names.as_slice() {
            names.push(name)?;
        }
    }
    Ok(names)
}

/// In how many entries a path comes or goes below, of changes in their order.
pub fn entries_changed(alloc: Global, changes: &[Change]) -> Result<usize, Memory>
    ensures { IfOk result (λ number. number ≡ entries_changed changes.now) }
{
    let mut names = names_changed(alloc, changes)?;
    names.dedup_by(|one, two| one.order(two).is_eq());
    Ok(names.len())
}
