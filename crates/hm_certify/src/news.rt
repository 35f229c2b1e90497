//! The first news of a side.
ghost use Rattle.std.specs.Prelude.{◌≡◌, ◌≢◌, ◌↔◌, ◌++◌, [], IsTrue, Some, MatchOption, option_copied};
ghost use Rattle.std.specs.declared.cmp.Ordering.TheVariants.{Less};
ghost use Rattle.hm_tree.specs.Names.{name_cmp};
ghost use Rattle.hm_tree.specs.Archives.{under};
ghost use Rattle.hm_tree.specs.PathOrder.{IsFirst};
ghost use Rattle.hm_tree.specs.States as states;
ghost use Rattle.hm_tree.specs.States.{state, IsWithin};
ghost use Rattle.hm_tree.specs.declared.archive.State.TheVariants.{Present};
ghost use Rattle.hm_report.specs.Reasons.{IsNews};
ghost use Rattle.hm_certify.specs.Standing.{archive_or_none, trio_of};
ghost use Rattle.hm_certify.specs.News.{IsWithinBefore, LosesHere};

use crate::standing::{Standing, is_within};
use hm_tree::{Archive, Name, State, Tree};
use std::cmp::Ordering;

/// The names of a path behind those of another; none where it doesn't begin with them.
pub fn names_behind<'a>(whole: &'a [Name], front: &[Name]) -> Option<&'a [Name]>
    ensures { MatchOption result ((rest : states.Path) → whole.now ≢ front.now ++ rest) (λ rest. whole.now ≡ front.now ++ rest.now) }
{
    if whole.len() < front.len() {
        return None;
    }
    for at in 0..front.len() {
        if !whole[at].same(&front[at]) {
            return None;
        }
    }
    Some(&whole[front.len()..])
}

// Whether what a name leads to is within an archive, if the name stands before another.
fn is_within_if_before(before: &Name, child: &Tree, archive: &Archive, name: &Name) -> bool
    ensures { IsTrue result ↔ (name_cmp before.now name.now ≡ Less → IsWithin (Some child.now) (under before.now archive.now)) }
{
    match before.order(name) {
        Ordering::Less => is_within(child, archive.child(before)),
        _ => true,
    }
}

// Whether what the names before a name lead to is within an archive.
fn is_within_before(tree: &Tree, archive: &Archive, name: &Name) -> bool
    ensures { IsTrue result ↔ IsWithinBefore tree.now archive.now name.now }
{
    for place in 0..tree.count() {
        let (before, child) = tree.edge(place);
        if !is_within_if_before(before, child, archive, name) {
            return false;
        }
    }
    true
}

// Whether something is present at the root of an archive.
fn is_present(archive: Option<&Archive>) -> bool
    ensures { IsTrue result ↔ (state (archive_or_none (option_copied archive.entry)) [] ≡ Present) }
{
    match archive {
        Some(archive) => matches!(archive.root(), State::Present),
        None => false,
    }
}

/// Whether the path of some names is the first one of a tree at which an archive isn't present.
pub fn is_first_news(tree: &Tree, archive: Option<&Archive>, names: &[Name]) -> bool
    ensures { IsTrue result ↔ IsFirst (IsNews (state (archive_or_none (option_copied archive.entry))) (state (Some tree.now))) names.now }
{
    let mut side = tree;
    let mut known = archive;
    for name in names {
        let Some(here) = known else {
            return false;
        };
        if !is_present(Some(here)) {
            return false;
        }
        if !is_within_before(side, here, name) {
            return false;
        }
        let Some(child) = side.child(name) else {
            return false;
        };
        side = child;
        known = here.child(name);
    }
    !is_present(known)
}

/// Whether one side deleted what stands here, and the path of some names is the first one of the other's news.
pub fn is_lost_first(here: Standing, names: &[Name]) -> bool
    ensures { IsTrue result ↔ LosesHere (trio_of here.entry) names.now }
{
    if !is_present(here.archive) {
        return false;
    }
    match (here.left, here.right) {
        (Some(left), None) => is_first_news(left, here.archive, names),
        (None, Some(right)) => is_first_news(right, here.archive, names),
        (Some(_), Some(_)) => false,
        (None, None) => false,
    }
}
