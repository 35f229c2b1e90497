//! Making the new files of what was loaded.
ghost use Rattle.std.specs.Prelude.{◌≡◌, ◌≤◌, IfOk, IfSome, length, map};
ghost use Rattle.hm_tree.specs.Nodes.{depth};
ghost use Rattle.hm_schema.specs.Membership.{HasNoTwins};
ghost use Rattle.hm_outcome.specs.Trios.{given, views, AreMembers};
ghost use Rattle.hm_reconcile.specs.Reconciled.{IsReconciled};
ghost use Rattle.hm_replica.specs.Bases.{IsBase};
ghost use Rattle.hm_replica.specs.Replicas.{replica_value};
ghost use Rattle.hm_run_files.specs.Steps.{Computes};
ghost use Rattle.hm_run_files.specs.Files.{all_bytes, new_of};
ghost use Rattle.hm_run_handed.specs.Handed.{handed_in};
ghost use Rattle.hm_run_sync.specs.Reads.{before_of, before_with, AreOpened};
ghost use Rattle.hm_run_sync.specs.Verdict.{old_trio, names_in, news_of, new_texts, MakesTexts, MakesOf, Makes};

use crate::closing::{NewTexts, Summary, close, close_as};
use crate::read::{BasePair, Inputs, ReplicaPair, SidePair, read_all};
use hm_reconcile::reconcile_owned;
use hm_report::Outcome;
use hm_run_files::{NewFile, Slot, Stop, measure_all};
use hm_run_handed::HandedIn;
use hm_schema::Schema;
use hm_tree::{Archive, Memory, Name, Tree};
use std::alloc::Global;

// The greater of the depths of two trees.
fn deeper(left: &Tree, right: &Tree) -> usize
    ensures left { depth left.now ≤ result }
    ensures right { depth right.now ≤ result }
{
    left.depth().max(right.depth())
}

// What the archive and the views become, and what the new views are put over. The views are taken from the replicas, and copied
// only where a program of lenses needs the old ones.
fn reconcile(
    alloc: Global,
    schema: &Schema,
    archive: Archive,
    replicas: ReplicaPair,
) -> Result<(Outcome, BasePair), Memory>
    requires no_twins { HasNoTwins schema.now }
    requires members { AreMembers schema.now schema.now.root (views (given archive replicas.left.view replicas.right.view)) }
    ensures outcome { IfOk result (λ r. IsReconciled schema.now (given archive replicas.left.view replicas.right.view) r.0) }
    ensures left { IfOk result (λ r. IsBase (replica_value replicas.left) r.1.left) }
    ensures right { IfOk result (λ r. IsBase (replica_value replicas.right) r.1.right) }
{
    let (left_view, left) = replicas.left.parted()?;
    let (right_view, right) = replicas.right.parted()?;
    let outcome = reconcile_owned(alloc, schema, archive, left_view, right_view)?;
    Ok((outcome, BasePair { left, right }))
}

// The new texts of what was read, whatever has changed.
fn make_both(
    alloc: Global,
    given: HandedIn<'_>,
    schema: &Schema,
    sides: &SidePair,
    archive: Archive,
    replicas: ReplicaPair,
) -> Result<NewTexts, Stop>
    requires { AreOpened (handed_in given means meaning) (before_with schema.now sides.now archive replicas) }
    ensures { Computes (MakesTexts (handed_in given.entry means meaning) (before_with schema.now sides.now archive replicas)) result }
{
    let bound = deeper(&replicas.left.view, &replicas.right.view);
    let (outcome, bases) = reconcile(alloc, schema, archive, replicas)?;
    close(alloc, given, sides, bases, outcome, bound)
}

// The new texts of what was read. In most runs only one side has changed since the last, or none has; then the archive is
// let go before the other side is closed, since both together are most of what is in memory.
fn make(alloc: Global, given: HandedIn<'_>, inputs: Inputs) -> Result<NewTexts, Stop>
    requires { AreOpened (handed_in given means meaning) (before_of inputs) }
    ensures { Computes (MakesTexts (handed_in given.entry means meaning) (before_of inputs)) result }
{
    let Inputs {
        schema,
        sides,
        archive,
        replicas,
    } = inputs;
    let none = Vec::new(alloc);
    if archive.records(&replicas.left.view) {
        drop(archive);
        let ReplicaPair { left, right } = replicas;
        let one = close_as(alloc, Slot::A, given, &sides.left, left, right)?;
        return Ok(NewTexts {
            archive: one.archive,
            left: one.made,
            right: one.kept,
            summary: Summary {
                conflicts: none,
                left: one.count,
                right: one.count,
            },
        });
    }
    if archive.records(&replicas.right.view) {
        drop(archive);
        let ReplicaPair { left, right } = replicas;
        let one = close_as(alloc, Slot::B, given, &sides.right, right, left)?;
        return Ok(NewTexts {
            archive: one.archive,
            left: one.kept,
            right: one.made,
            summary: Summary {
                conflicts: none,
                left: one.count,
                right: one.count,
            },
        });
    }
    make_both(alloc, given, &schema, &sides, archive, replicas)
}

/// The names of the files that a synchronisation writes.
#[derive(Clone, Copy)]
pub struct WrittenFiles<'a> {
    pub archive: &'a Name,
    pub left: &'a Name,
    pub right: &'a Name,
}

// The new files, in the order in which they are measured and written, and what may be told of them.
fn in_order<'a>(files: WrittenFiles<'a>, new: NewTexts) -> ([NewFile<'a>; 3], Summary)
    ensures files { map new_of result.0 ≡ news_of (names_in files.entry) (new_texts new) }
    ensures summary { result.1 ≡ new.summary }
{
    let news = [
        NewFile {
            slot: Slot::A,
            name: files.left,
            bytes: new.left,
        },
        NewFile {
            slot: Slot::B,
            name: files.right,
            bytes: new.right,
        },
        NewFile {
            slot: Slot::Archive,
            name: files.archive,
            bytes: new.archive,
        },
    ];
    (news, new.summary)
}

// The new texts of what was read, which was reconciled to an outcome before.
fn make_by(
    alloc: Global,
    given: HandedIn<'_>,
    inputs: Inputs,
    outcome: Outcome,
) -> Result<NewTexts, Stop>
    requires opened { AreOpened (handed_in given means meaning) (before_of inputs) }
    requires outcome { IsReconciled inputs.schema (old_trio (before_of inputs)) outcome }
    ensures { Computes (MakesTexts (handed_in given.entry means meaning) (before_of inputs)) result }
{
    let ReplicaPair { left, right } = inputs.replicas;
    let bound = deeper(&left.view, &right.view);
    let bases = BasePair {
        left: left.into_base(),
        right: right.into_base(),
    };
    close(alloc, given, &inputs.sides, bases, outcome, bound)
}

// The new texts of what was read, whether it was reconciled before or wasn't.
fn make_any(
    alloc: Global,
    given: HandedIn<'_>,
    inputs: Inputs,
    outcome: Option<Outcome>,
) -> Result<NewTexts, Stop>
    requires opened { AreOpened (handed_in given means meaning) (before_of inputs) }
    requires outcome { IfSome outcome (λ o. IsReconciled inputs.schema (old_trio (before_of inputs)) o) }
    ensures { Computes (MakesTexts (handed_in given.entry means meaning) (before_of inputs)) result }
{
    match outcome {
        Some(outcome) => make_by(alloc, given, inputs, outcome),
        None => make(alloc, given, inputs),
    }
}

/// The new files of what was read, in the order in which they are written, and what may be told of them; or the first stop.
/// Where it was reconciled before, it goes by that outcome.
pub fn plan_of<'a>(
    alloc: Global,
    files: WrittenFiles<'a>,
    given: HandedIn<'_>,
    inputs: Inputs,
    outcome: Option<Outcome>,
) -> Result<([NewFile<'a>; 3], Summary), Stop>
    requires opened { AreOpened (handed_in given means meaning) (before_of inputs) }
    requires outcome { IfSome outcome (λ o. IsReconciled inputs.schema (old_trio (before_of inputs)) o) }
    ensures { Computes (MakesOf (handed_in given.entry means meaning) (names_in files.entry) (before_of inputs)) result }
{
    let (news, summary) = in_order(files, make_any(alloc, given, inputs, outcome)?);
    measure_all(&news)?;
    Ok((news, summary))
}

/// The same of what was loaded.
pub fn plan<'a>(
    alloc: Global,
    files: WrittenFiles<'a>,
    given: HandedIn<'_>,
    loads: Vec<Vec<u8>>,
) -> Result<([NewFile<'a>; 3], Summary), Stop>
    requires { length loads.items ≡ 6 }
    ensures { Computes (Makes (handed_in given.entry means meaning) (names_in files.entry) (all_bytes loads)) result }
{
    let inputs = read_all(alloc, given, loads)?;
    plan_of(alloc, files, given, inputs, None)
}
