//! Whether conflicts show why they are there.
ghost use Rattle.std.specs.Prelude.{◌≡◌, ◌↔◌, [], IsTrue, IsSome, All, option_copied};
ghost use Rattle.hm_tree.specs.declared.archive.State.TheVariants.{Marked};
ghost use Rattle.hm_tree.specs.States.{state};
ghost use Rattle.hm_schema.specs.Values.{reached};
ghost use Rattle.hm_outcome.specs.Trios.{given, views, AreMembers};
ghost use Rattle.hm_outcome.specs.Contested.{AreRefused};
ghost use Rattle.hm_report.specs.Reasons.{ShowsWhy};
ghost use Rattle.hm_certify.specs.Standing.{archive_or_none, trio_of};
ghost use Rattle.hm_certify.specs.Steps.{along};
ghost use Rattle.hm_certify.specs.Shown.{IsEarlierHere, LosesBehind, AreNotPermitted};

use crate::carried::are_carried;
use crate::news::{is_lost_first, names_behind};
use crate::standing::{Standing, are_same};
use hm_report::{Conflict, Why};
use hm_schema::Schema;
use hm_tree::{Archive, NameSet, Path, State, Tree};

// What stands at a path.
fn standing_at<'a>(
    archive: &'a Archive,
    left: &'a Tree,
    right: &'a Tree,
    path: &Path,
) -> Standing<'a>
    ensures { trio_of result ≡ along path.now (given archive.now left.now right.now) }
{
    Standing {
        archive: archive.at(path),
        left: left.at(path),
        right: right.at(path),
    }
}

// Whether an archive is marked at its root.
fn is_marked(archive: Option<&Archive>) -> bool
    ensures { IsTrue result ↔ (state (archive_or_none (option_copied archive.entry)) [] ≡ Marked) }
{
    match archive {
        Some(archive) => matches!(archive.root(), State::Marked),
        None => false,
    }
}

// Whether an earlier mark stands here, where the sides still differ.
fn is_earlier(here: Standing) -> bool
    ensures { IsTrue result ↔ IsEarlierHere (trio_of here.entry) }
{
    is_marked(here.archive) && !are_same(here.left, here.right)
}

// Whether one side deleted what stands at a path, and another path is the first one of the other's news there.
fn is_lost_behind(here: Standing, path: &Path, kept: &Path) -> bool
    ensures { IsTrue result ↔ LosesBehind (trio_of here.entry) path.now kept.now }
{
    match names_behind(&kept.names, &path.names) {
        Some(rest) => is_lost_first(here, rest),
        None => false,
    }
}

// Whether the node of a path doesn't permit one of two sets of names.
fn are_not_permitted(schema: &Schema, path: &Path, left: &NameSet, right: &NameSet) -> bool
    requires { IsSome (reached schema.now schema.now.root path.now) }
    ensures { IsTrue result ↔ AreNotPermitted schema.now schema.now.root path.now left.now right.now }
{
    let id = schema.at(path);
    if !schema.permits_names(id, left) {
        return true;
    }
    !schema.permits_names(id, right)
}

// Whether two sets are the names that come to stand at a path on the left and on the right side, and one of them isn't
// permitted there.
fn are_refused(
    schema: &Schema,
    archive: &Archive,
    left: &Tree,
    right: &Tree,
    path: &Path,
    on_left: &NameSet,
    on_right: &NameSet,
) -> bool
    requires members { AreMembers schema.now schema.now.root (views (given archive.now left.now right.now)) }
    ensures { IsTrue result ↔ AreRefused schema.now schema.now.root (views (given archive.now left.now right.now)) path.now on_left.now on_right.now }
{
    let known = archive.at(path);
    if is_marked(known) {
        return false;
    }
    let Some(mine) = left.at(path) else {
        return false;
    };
    let Some(other) = right.at(path) else {
        return false;
    };
    if !are_carried(known, mine, other, on_left) {
        return false;
    }
    if !are_carried(known, other, mine, on_right) {
        return false;
    }
    are_not_permitted(schema, path, on_left, on_right)
}

// Whether a conflict shows why it is there.
fn shows_why(
    schema: &Schema,
    archive: &Archive,
    left: &Tree,
    right: &Tree,
    conflict: &Conflict,
) -> bool
    requires members { AreMembers schema.now schema.now.root (views (given archive.now left.now right.now)) }
    ensures { IsTrue result ↔ ShowsWhy schema.now schema.now.root (views (given archive.now left.now right.now)) conflict.now.path conflict.now.why }
{
    let path = &conflict.path;
    match &conflict.why {
        Why::Earlier => is_earlier(standing_at(archive, left, right, path)),
        Why::Lost { kept } => is_lost_behind(standing_at(archive, left, right, path), path, kept),
        Why::Names {
            left: on_left,
            right: on_right,
        } => are_refused(schema, archive, left, right, path, on_left, on_right),
    }
}

/// Whether each conflict shows why it is there.
pub fn all_show_why(
    schema: &Schema,
    archive: &Archive,
    left: &Tree,
    right: &Tree,
    conflicts: &[Conflict],
) -> bool
    requires members { AreMembers schema.now schema.now.root (views (given archive.now left.now right.now)) }
    ensures { IsTrue result ↔ All (λ c. ShowsWhy schema.now schema.now.root (views (given archive.now left.now right.now)) c.path c.why) conflicts.now }
{
    for conflict in conflicts {
        if !shows_why(schema, archive, left, right, conflict) {
            return false;
        }
    }
    true
}
