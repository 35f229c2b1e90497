//! Reconciling two replicas against the archive of what they last agreed on.
//!
//! Under each name one of a few things happens: what one side alone has, or both have alike, is settled as a whole
//! (`side`); what both have is gone through name by name (`apart`, `edges`, `node`), once it is known which names the
//! sides are to have and that the schema permits them (`carried`, `names`). Then the topmost marks of the new archive
//! are listed (`marks`), and for each of them what shows why is found in what the old archive held there (`conflicts`,
//! `reasons`). Nothing is copied that can be moved. It knows no texts and no files.
//!
//! Proved: `reconcile`, and `reconcile_owned`, which takes the archive and the trees over, give the outcome, for every
//! schema without twins, every archive and any two members, and its conflicts, each with what shows why: one at each
//! mark of the new archive above which there is none, in the order of their paths. There is exactly one outcome, with
//! exactly one list of conflicts, and this is it; that there is, the contract says for want of memory too.
#![tactic(auto)]

mod apart;
mod carried;
mod conflicts;
mod edges;
mod marks;
mod names;
mod news;
mod node;
mod paths;
mod reasons;
mod side;
mod trees;

ghost use Rattle.std.specs.Prelude.{IfOk};
ghost use Rattle.hm_schema.specs.Membership.{HasNoTwins};
ghost use Rattle.hm_outcome.specs.Trios.{given, views, AreMembers};
ghost use Rattle.hm_report.specs.Conflicts.{HasOneOutcomeWith};
ghost use Rattle.hm_reconcile.specs.Reconciled.{IsReconciled};

use crate::conflicts::conflicts_of;
use crate::node::at_node;
use hm_report::Outcome;
use hm_schema::Schema;
use hm_tree::{Archive, Memory, Tree};
use std::alloc::Global;

/// Reconciles two members of a schema against the archive of what they last agreed on: name by name, what only one
/// side changed is carried to the other, as far as each node permits the names that come to stand there; where both
/// changed, or the names can't stand together, the archive is marked, and both sides stay. Each conflict says why.
#[tactic(auto, using(hm_report::proofs::Existence::one_outcome_with))]
pub fn reconcile(
    alloc: Global,
    schema: &Schema,
    archive: &Archive,
    left: &Tree,
    right: &Tree,
) -> Result<Outcome, Memory>
    requires no_twins { HasNoTwins schema.now }
    requires members { AreMembers schema.now schema.now.root (views (given archive.now left.now right.now)) }
    ensures reconciled { IfOk result (IsReconciled schema.now (given archive.now left.now right.now)) }
    ensures one_outcome { HasOneOutcomeWith schema.now schema.now.root (given archive.now left.now right.now) }
{
    reconcile_owned(alloc, schema, archive.copy()?, left.copy()?, right.copy()?)
}

/// The same of an archive and two members that aren't needed any more: what stays as it is is moved, not copied.
pub fn reconcile_owned(
    alloc: Global,
    schema: &Schema,
    archive: Archive,
    left: Tree,
    right: Tree,
) -> Result<Outcome, Memory>
    requires no_twins { HasNoTwins schema.now }
    requires members { AreMembers schema.now schema.now.root (views (given archive left right)) }
    ensures reconciled { IfOk result (IsReconciled schema.now (given archive left right)) }
    ensures one_outcome { HasOneOutcomeWith schema.now schema.now.root (given archive left right) }
{
    let made = at_node(alloc, schema, schema.root(), archive, left, right)?;
    let conflicts = conflicts_of(alloc, &made.held, &made.left, &made.right, &made.archive)?;
    Ok(Outcome {
        archive: made.archive,
        left: made.left,
        right: made.right,
        conflicts,
    })
}
