//! Checking a reconciling that somebody else made, without trusting who made it.
//!
//! Each place of the new trees is looked at beside what stood there before (`standing`): whether the result is safe
//! there (`safe`), whether the conflicts are those of the topmost marks (`marks`), and whether each shows why
//! (`reasons`). The check knows the definitions and no way to find an outcome, needs no code of `hm_reconcile`, and
//! takes no memory.
//!
//! Proved, for a schema without twins and two members of it: `certify` answers true exactly where the result that is
//! handed in is safe under the schema, its conflicts stand at its topmost marks in their order, and each shows why.
//! Where it does, the result is maximal, and its two replicas are those of the outcome. The contract also says,
//! whatever result is handed in and whatever the answer, that there is exactly one outcome, with exactly one list of
//! conflicts.
#![tactic(auto)]

mod carried;
mod marks;
mod news;
mod reasons;
mod safe;
mod standing;

ghost use Rattle.std.specs.Prelude.{◌↔◌, IsTrue};
ghost use Rattle.hm_schema.specs.Membership.{HasNoTwins};
ghost use Rattle.hm_outcome.specs.Trios.{given, views, AreMembers};
ghost use Rattle.hm_outcome.specs.Outcomes.{IsMaximal};
ghost use Rattle.hm_report.specs.Conflicts.{HasOneOutcomeWith};
ghost use Rattle.hm_certify.specs.Certificates.{IsCertified, HasOutcomeSides};

use crate::marks::are_at_marks;
use crate::reasons::all_show_why;
use crate::safe::is_safe;
use crate::standing::Standing;
use hm_report::Outcome;
use hm_schema::Schema;
use hm_tree::{Archive, Tree};

/// Whether an outcome of reconciling two members of a schema against an archive is safe, its conflicts stand in the
/// order of their paths, one at each topmost mark of the new archive and none elsewhere, and each shows why. Takes no
/// memory.
pub fn certify(
    schema: &Schema,
    archive: &Archive,
    left: &Tree,
    right: &Tree,
    outcome: &Outcome,
) -> bool
    requires no_twins { HasNoTwins schema.now }
    requires members { AreMembers schema.now schema.now.root (views (given archive.now left.now right.now)) }
    ensures certified { IsTrue result ↔ IsCertified schema.now schema.now.root (given archive.now left.now right.now) (given outcome.now.archive outcome.now.left outcome.now.right) outcome.now.conflicts.items }
    ensures best { IsTrue result → IsMaximal schema.now schema.now.root (given archive.now left.now right.now) (given outcome.now.archive outcome.now.left outcome.now.right) }
    ensures one_outcome { HasOneOutcomeWith schema.now schema.now.root (given archive.now left.now right.now) }
    ensures sides { IsTrue result → HasOutcomeSides schema.now schema.now.root (given archive.now left.now right.now) (given outcome.now.archive outcome.now.left outcome.now.right) }
{
    let before = Standing {
        archive: Some(archive),
        left: Some(left),
        right: Some(right),
    };
    if !is_safe(
        before,
        &outcome.archive,
        Some(&outcome.left),
        Some(&outcome.right),
    ) {
        return false;
    }
    if !schema.member(&outcome.left) {
        return false;
    }
    if !schema.member(&outcome.right) {
        return false;
    }
    if !are_at_marks(&outcome.archive, &outcome.conflicts) {
        return false;
    }
    all_show_why(schema, archive, left, right, &outcome.conflicts)
}
