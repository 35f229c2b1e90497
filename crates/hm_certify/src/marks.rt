//! Whether conflicts stand at the topmost marks of an archive.
ghost use Rattle.std.specs.Prelude.{◌≡◌, ◌↔◌, ◌+◌, ◌<◌, IsTrue, MatchOption, length, map, All};
ghost use Rattle.std.specs.declared.cmp.Ordering.TheVariants.{Less};
ghost use Rattle.std.specs.List.Sorted.{IsStrictlySortedBy};
ghost use Rattle.hm_tree.specs.States.{state};
ghost use Rattle.hm_safety.specs.Safety.{IsTopmostMark};
ghost use Rattle.hm_tree.specs.PathOrder.{path_cmp};
ghost use Rattle.hm_outcome.specs.TopmostList.{topmost_list};
ghost use Rattle.hm_outcome.specs.TopmostMarks.{AreTopmostMarks};

use hm_report::Conflict;
use hm_tree::{Archive, Name, Path, State};
use std::cmp::Ordering;

// Whether a path stands before another, by their names.
fn names_before(one: &[Name], other: &[Name]) -> bool
    ensures { IsTrue result ↔ (path_cmp one.now other.now ≡ Less) }
{
    for at in 0..one.len() {
        if at >= other.len() {
            return false;
        }
        match one[at].order(&other[at]) {
            Ordering::Less => return true,
            Ordering::Greater => return false,
            Ordering::Equal => {}
        }
    }
    one.len() < other.len()
}

// Whether a path stands before another: a path before its extensions, and siblings in the order of their names.
fn is_before(one: &Path, other: &Path) -> bool
    ensures { IsTrue result ↔ (path_cmp one.now other.now ≡ Less) }
{
    names_before(&one.names, &other.names)
}

// Whether the paths of conflicts ascend.
fn are_ascending(conflicts: &[Conflict]) -> bool
    ensures { IsTrue result ↔ IsStrictlySortedBy path_cmp (map (λ c. c.path) conflicts.now) }
{
    for at in 1..conflicts.len() {
        if !is_before(&conflicts[at - 1].path, &conflicts[at].path) {
            return false;
        }
    }
    true
}

// Whether a topmost mark of an archive stands at a path.
fn is_topmost(archive: &Archive, path: &Path) -> bool
    ensures { IsTrue result ↔ IsTopmostMark (state archive.now) path.now }
{
    let mut here = archive;
    for name in &path.names {
        if let State::Marked = here.root() {
            return false;
        }
        match here.child(name) {
            Some(child) => here = child,
            None => return false,
        }
    }
    matches!(here.root(), State::Marked)
}

// Whether a topmost mark stands at the path of each conflict.
fn all_topmost(archive: &Archive, conflicts: &[Conflict]) -> bool
    ensures { IsTrue result ↔ All (λ c. IsTopmostMark (state archive.now) c.path) conflicts.now }
{
    for conflict in conflicts {
        if !is_topmost(archive, &conflict.path) {
            return false;
        }
    }
    true
}

// What is left of a number once one was taken away for each topmost mark; none where it doesn't suffice.
#[tactic(auto, using(hm_outcome::proofs::TopmostLists::shallower))]
fn left_over(archive: &Archive, number: usize) -> Option<usize>
    ensures { MatchOption result (number < length (topmost_list archive.now)) (λ left. left + length (topmost_list archive.now) ≡ number) }
{
    if let State::Marked = archive.root() {
        return if number == 0 { None } else { Some(number - 1) };
    }
    let mut left = number;
    for place in 0..archive.count() {
        let (_, below) = archive.edge(place);
        match left_over(below, left) {
            Some(rest) => left = rest,
            None => return None,
        }
    }
    Some(left)
}

// Whether an archive has a number of topmost marks.
fn has_marks(archive: &Archive, number: usize) -> bool
    ensures { IsTrue result ↔ (number ≡ length (topmost_list archive.now)) }
{
    match left_over(archive, number) {
        Some(left) => left == 0,
        None => false,
    }
}

/// Whether the conflicts stand in the order of paths, one at each topmost mark of an archive and none elsewhere.
pub fn are_at_marks(archive: &Archive, conflicts: &[Conflict]) -> bool
    ensures { IsTrue result ↔ AreTopmostMarks (state archive.now) (map (λ c. c.path) conflicts.now) }
{
    if !are_ascending(conflicts) {
        return false;
    }
    if !all_topmost(archive, conflicts) {
        return false;
    }
    has_marks(archive, conflicts.len())
}
