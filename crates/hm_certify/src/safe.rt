//! Whether a result is safe.
ghost use Rattle.std.specs.Prelude.{◌↔◌, [], IsTrue, option_copied};
ghost use Rattle.hm_tree.specs.Names as name;
ghost use Rattle.hm_tree.specs.States.{state};
ghost use Rattle.hm_safety.specs.Changes.{IsLost};
ghost use Rattle.hm_safety.specs.Safety.{IsSafe};
ghost use Rattle.hm_outcome.specs.Trios.{views};
ghost use Rattle.hm_certify.specs.Standing.{archive_or_none, trio_of};
ghost use Rattle.hm_certify.specs.Safe.{IsGone, IsStop, MayStand, GoesUnder, EachGoes};

use crate::standing::{Standing, are_same, is_missing, is_within};
use hm_tree::{Archive, Name, State, Tree};

// Whether nothing is left of what may be taken away.
fn is_gone(before: Standing, left: Option<&Tree>, right: Option<&Tree>) -> bool
    ensures { IsTrue result ↔ IsGone (trio_of before.entry) (option_copied left.entry) (option_copied right.entry) }
{
    if left.is_some() || right.is_some() {
        return false;
    }
    match (before.left, before.right) {
        (None, None) => true,
        (Some(alone), None) => is_within(alone, before.archive),
        (None, Some(alone)) => is_within(alone, before.archive),
        (Some(_), Some(_)) => false,
    }
}

// Whether one side deleted what stands here, while the other has news.
fn is_lost(archive: Option<&Archive>, keeper: Option<&Tree>, other: Option<&Tree>) -> bool
    ensures { IsTrue result ↔ IsLost (state (archive_or_none (option_copied archive.entry))) (state (option_copied keeper.entry)) (state (option_copied other.entry)) [] }
{
    match (keeper, other) {
        (Some(keeper), None) => !is_missing(archive) && !is_within(keeper, archive),
        _ => false,
    }
}

// Whether both sides stay as they were, where a mark may stand.
fn is_stop(before: Standing, left: Option<&Tree>, right: Option<&Tree>) -> bool
    ensures { IsTrue result ↔ IsStop (trio_of before.entry) (option_copied left.entry) (option_copied right.entry) }
{
    if !are_same(left, before.left) || !are_same(right, before.right) {
        return false;
    }
    match (before.left, before.right) {
        (Some(_), Some(_)) => true,
        (Some(_), None) => is_lost(before.archive, before.left, before.right),
        (None, Some(_)) => is_lost(before.archive, before.right, before.left),
        (None, None) => false,
    }
}

// Whether both sides may come to be there.
fn may_stand(before: Standing) -> bool
    ensures { IsTrue result ↔ MayStand (trio_of before.entry) }
{
    match (before.left, before.right) {
        (Some(_), Some(_)) => true,
        (Some(_), None) => is_missing(before.archive),
        (None, Some(_)) => is_missing(before.archive),
        (None, None) => false,
    }
}

// Whether what stood under a name is gone, where the new archive lacks the name.
fn goes_under(before: Standing, archive: &Archive, left: &Tree, right: &Tree, name: &Name) -> bool
    ensures { IsTrue result ↔ GoesUnder (trio_of before.entry) archive.now left.now right.now name.now }
{
    match archive.child(name) {
        Some(_) => true,
        None => is_gone(before.child(name), left.child(name), right.child(name)),
    }
}

// Whether of each name of a side what the new archive lacks is gone.
fn each_goes(
    before: Standing,
    archive: &Archive,
    left: &Tree,
    right: &Tree,
    side: Option<&Tree>,
) -> bool
    ensures { IsTrue result ↔ EachGoes (trio_of before.entry) archive.now left.now right.now (option_copied side.entry) }
{
    let Some(side) = side else {
        return true;
    };
    for place in 0..side.count() {
        let (name, _) = side.edge(place);
        if !goes_under(before, archive, left, right, name) {
            return false;
        }
    }
    true
}

// The same of the names of both sides.
fn both_go(
    before: Standing,
    archive: &Archive,
    left: &Tree,
    right: &Tree,
    one: Option<&Tree>,
    other: Option<&Tree>,
) -> bool
    ensures { IsTrue result ↔ (EachGoes (trio_of before.entry) archive.now left.now right.now (option_copied one.entry) × EachGoes (trio_of before.entry) archive.now left.now right.now (option_copied other.entry)) }
{
    each_goes(before, archive, left, right, one) && each_goes(before, archive, left, right, other)
}

// Whether under each name that the new archive lacks what stood there is gone.
fn others_go(before: Standing, archive: &Archive, left: &Tree, right: &Tree) -> bool
    ensures { IsTrue result ↔ ((k : name.Name) → GoesUnder (trio_of before.entry) archive.now left.now right.now k) }
{
    if !both_go(before, archive, left, right, Some(left), Some(right)) {
        return false;
    }
    both_go(before, archive, left, right, before.left, before.right)
}

/// Whether the new archive and the two new sides are a safe result.
#[tactic(auto, using(hm_outcome::proofs::TopmostLists::shallower))]
pub fn is_safe(
    before: Standing,
    archive: &Archive,
    left: Option<&Tree>,
    right: Option<&Tree>,
) -> bool
    ensures { IsTrue result ↔ IsSafe (views (trio_of before.entry)) (views (record { archive = archive.now; left = option_copied left.entry; right = option_copied right.entry })) }
{
    match archive.root() {
        State::Missing => return is_gone(before, left, right),
        State::Marked => return is_stop(before, left, right),
        State::Present => {}
    }
    let (Some(left), Some(right)) = (left, right) else {
        return false;
    };
    if !may_stand(before) {
        return false;
    }
    if !others_go(before, archive, left, right) {
        return false;
    }
    for place in 0..archive.count() {
        let (name, below) = archive.edge(place);
        if !is_safe(
            before.child(name),
            below,
            left.child(name),
            right.child(name),
        ) {
            return false;
        }
    }
    true
}
