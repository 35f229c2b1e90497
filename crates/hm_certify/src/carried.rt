//! Whether names are those that a side is to have.
ghost use Rattle.std.specs.Prelude.{◌↔◌, [], IsTrue, Some, option_copied};
ghost use Rattle.hm_tree.specs.States.{state};
ghost use Rattle.hm_outcome.specs.Carried.{IsCarried, AreCarried};
ghost use Rattle.hm_certify.specs.Standing.{archive_or_none};
ghost use Rattle.hm_certify.specs.Carrying.{IsJudged, EachJudged, AllJudged};

use crate::standing::{archive_child, is_missing, is_within};
use hm_tree::{Archive, Name, NameSet, Tree};

// Whether a side is to have what stands here.
fn is_carried(archive: Option<&Archive>, mine: Option<&Tree>, other: Option<&Tree>) -> bool
    ensures { IsTrue result ↔ IsCarried (state (archive_or_none (option_copied archive.entry))) (state (option_copied mine.entry)) (state (option_copied other.entry)) [] }
{
    match (mine, other) {
        (Some(_), Some(_)) => true,
        (Some(mine), None) => !is_within(mine, archive),
        (None, Some(_)) => is_missing(archive),
        (None, None) => false,
    }
}

// Whether a name is in a set just where a side is to have it.
fn is_judged(
    archive: Option<&Archive>,
    mine: &Tree,
    other: &Tree,
    names: &NameSet,
    name: &Name,
) -> bool
    ensures { IsTrue result ↔ IsJudged (archive_or_none (option_copied archive.entry)) mine.now other.now names.now name.now }
{
    names.has(name)
        == is_carried(
            archive_child(archive, name),
            mine.child(name),
            other.child(name),
        )
}

// The same of each name of a side.
fn each_judged(
    archive: Option<&Archive>,
    mine: &Tree,
    other: &Tree,
    names: &NameSet,
    side: &Tree,
) -> bool
    ensures { IsTrue result ↔ EachJudged (archive_or_none (option_copied archive.entry)) mine.now other.now names.now side.now }
{
    for place in 0..side.count() {
        let (name, _) = side.edge(place);
        if !is_judged(archive, mine, other, names, name) {
            return false;
        }
    }
    true
}

// The same of each name of a list.
fn all_judged(
    archive: Option<&Archive>,
    mine: &Tree,
    other: &Tree,
    names: &NameSet,
    list: &[Name],
) -> bool
    ensures { IsTrue result ↔ AllJudged (archive_or_none (option_copied archive.entry)) mine.now other.now names.now list.now }
{
    for name in list {
        if !is_judged(archive, mine, other, names, name) {
            return false;
        }
    }
    true
}

/// Whether a set holds the names that a side is to have right below a place that both sides have.
pub fn are_carried(archive: Option<&Archive>, mine: &Tree, other: &Tree, names: &NameSet) -> bool
    ensures { IsTrue result ↔ AreCarried (state (archive_or_none (option_copied archive.entry))) (state (Some mine.now)) (state (Some other.now)) [] names.now }
{
    if !each_judged(archive, mine, other, names, mine) {
        return false;
    }
    if !each_judged(archive, mine, other, names, other) {
        return false;
    }
    all_judged(archive, mine, other, names, names.names())
}
