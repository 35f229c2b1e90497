//! Telling what would change.
ghost use Rattle.std.specs.Prelude.{◌≡◌, [], IfOk, IfSome};
ghost use Rattle.hm_schema.specs.Membership.{HasNoTwins};
ghost use Rattle.hm_outcome.specs.Trios.{views, AreMembers};
ghost use Rattle.hm_reconcile.specs.Reconciled.{IsReconciled};
ghost use Rattle.hm_changes_report.specs.Text.{changes_of};
ghost use Rattle.hm_run_effects.specs.Effects.{output_value};
ghost use Rattle.hm_run_sync.specs.Reads.{before_of};
ghost use Rattle.hm_run_sync.specs.Verdict.{old_trio};
ghost use Rattle.hm_run_changes.specs.Changing.{deletes_over, holds_nothing, is_over, changes_status, told_effect, IsToldOf, IsTold};

use hm_changes::{Change, Turn, changes_of, entries_of};
use hm_changes_alike::{Views, alikes_of};
use hm_changes_report::{Changes, write_changes};
use hm_reconcile::reconcile;
use hm_report::{Conflict, Outcome};
use hm_run_sync::Inputs;
use hm_run_words::Output;
use hm_tree::{Archive, Memory, State, Tree};
use std::alloc::Global;

// Whether more entries go than may.
fn deletes_over(most: usize, changes: &[Change]) -> bool
    ensures { result ≡ deletes_over most changes.now }
{
    entries_of(Turn::Deleted, changes) > most
}

// Whether more entries of a side go than may.
fn is_over(most: Option<usize>, changes: &Changes<'_>) -> bool
    ensures { result ≡ is_over most (changes_of changes.now) }
{
    match most {
        Some(most) => { deletes_over(most, changes.left) || deletes_over(most, changes.right) }
        None => false,
    }
}

// 7 where more entries of a side go than may, and else 1 where conflicts remain.
fn status_of(most: Option<usize>, changes: &Changes<'_>) -> u8
    ensures { result ≡ changes_status most (changes_of changes.now) }
{
    if is_over(most, changes) {
        return 7;
    }
    u8::from(changes.conflicts.len() > 0)
}

// The output of changes.
fn output_of(alloc: Global, most: Option<usize>, changes: Changes<'_>) -> Result<Output, Memory>
    ensures { IfOk result (λ output. output_value output ≡ told_effect most (changes_of changes.entry)) }
{
    Ok(Output {
        status: status_of(most, &changes),
        text: write_changes(alloc, changes)?,
    })
}

// Whether an archive holds nothing.
fn holds_nothing(archive: &Archive) -> bool
    ensures { result ≡ holds_nothing archive.now }
{
    matches!(archive.root(), State::Missing)
}

// What is told of the views of both sides.
fn tell_views(
    alloc: Global,
    most: Option<usize>,
    first: bool,
    left: Views<'_>,
    right: Views<'_>,
    conflicts: &[Conflict],
) -> Result<Output, Memory>
    ensures { IfOk result (λ output. IsToldOf most first left.entry.old.now left.entry.new.now right.entry.old.now right.entry.new.now conflicts.now (output_value output)) }
{
    let left_changes = changes_of(alloc, left.old, left.new)?;
    let right_changes = changes_of(alloc, right.old, right.new)?;
    let alike = alikes_of(alloc, left, right, &left_changes, &right_changes)?;
    let changes = Changes {
        first,
        view: left.old,
        left: &left_changes,
        left_entries: left.old.count(),
        right: &right_changes,
        right_entries: right.old.count(),
        alike: &alike,
        conflicts,
    };
    output_of(alloc, most, changes)
}

// What is told of two views where both become as one, without a conflict.
fn tell_as(
    alloc: Global,
    most: Option<usize>,
    first: bool,
    left: &Tree,
    right: &Tree,
    new: &Tree,
) -> Result<Output, Memory>
    ensures { IfOk result (λ output. IsToldOf most first left.now new.now right.now new.now [] (output_value output)) }
{
    let left = Views { old: left, new };
    let right = Views { old: right, new };
    tell_views(alloc, most, first, left, right, &[])
}

// What is told of two views and the outcome of their reconciling.
fn tell_outcome(
    alloc: Global,
    most: Option<usize>,
    first: bool,
    left: &Tree,
    right: &Tree,
    outcome: &Outcome,
) -> Result<Output, Memory>
    ensures { IfOk result (λ output. IsToldOf most first left.now outcome.now.left right.now outcome.now.right outcome.now.conflicts.items (output_value output)) }
{
    let left = Views {
        old: left,
        new: &outcome.left,
    };
    let right = Views {
        old: right,
        new: &outcome.right,
    };
    tell_views(alloc, most, first, left, right, &outcome.conflicts)
}

/// What is told of what was read, if there is memory for it, with the outcome that it was reconciled to, if it was. In most
/// runs only one side has changed since the last, or none has: then the new views are known without a reconciling.
pub fn tell(
    alloc: Global,
    most: Option<usize>,
    inputs: &Inputs,
) -> (Result<Output, Memory>, Option<Outcome>)
    requires no_twins { HasNoTwins inputs.now.schema }
    requires members { AreMembers inputs.now.schema inputs.now.schema.root (views (old_trio (before_of inputs.now))) }
    ensures told { IfOk result.0 (λ output. IsTold most (before_of inputs.now) (output_value output)) }
    ensures outcome { IfSome result.1 (λ o. IsReconciled inputs.now.schema (old_trio (before_of inputs.now)) o) }
{
    let left = &inputs.replicas.left.view;
    let right = &inputs.replicas.right.view;
    let first = holds_nothing(&inputs.archive);
    if inputs.archive.records(left) {
        return (tell_as(alloc, most, first, left, right, right), None);
    }
    if inputs.archive.records(right) {
        return (tell_as(alloc, most, first, left, right, left), None);
    }
    match reconcile(alloc, &inputs.schema, &inputs.archive, left, right) {
        Ok(outcome) => {
            let output = tell_outcome(alloc, most, first, left, right, &outcome);
            (output, Some(outcome))
        }
        Err(Memory) => (Err(Memory), None),
    }
}
