//! Reconciling the two sides of a node, name by name.
ghost use Rattle.std.specs.Prelude.{◌≡◌, ◌≢◌, ◌<◌, [], Some, None, IfOk, OnOk, IsTrue, length, false};
ghost use Rattle.hm_tree.specs.declared.archive.State.TheVariants.{Present, Marked};
ghost use Rattle.hm_tree.specs.Nodes.{below};
ghost use Rattle.hm_tree.specs.Archives.{Archive as ArchiveValue, under, with_archive};
ghost use Rattle.hm_tree.specs.States.{state};
ghost use Rattle.hm_schema.specs.Membership.{HasNoTwins, IsMember};
ghost use Rattle.hm_schema.specs.declared.node.NodeId.{NodeId};
ghost use Rattle.hm_schema.specs.Values.{SchemaValue};
ghost use Rattle.hm_outcome.specs.Trios.{given, views, AreMembers};
ghost use Rattle.hm_outcome.specs.Contested.{IsContested};
ghost use Rattle.hm_outcome.specs.Outcomes.{IsOutcome};
ghost use Rattle.hm_outcome.specs.Gathering.{with_side, with_trio, IsInEither};
ghost use Rattle.hm_reconcile.specs.Sides.{outcome_of, sides_of};
ghost use Rattle.hm_reconcile.specs.Holding.{Holds};
ghost use Rattle.hm_reconcile.specs.Naming.{ArePermitted};

use crate::apart::{take_next, take_under};
use crate::names::are_permitted;
use crate::side::{Sides, left_alone, right_alone};
use crate::trees::{Trees, agreed, stopped, with_room};
use hm_schema::{NodeId, Schema};
use hm_tree::{Archive, Memory, Name, State, Tree};
use std::alloc::Global;
use std::collections::VecDeque;

// Equal sides come through whole. Sides that aren't marked are compared only where they are no deeper than this, so
// that what lies far below is not compared again at each node above it.
const SHALLOW: usize = 4;

// Puts what stands under a name into a side, if anything does.
fn put_side(side: &mut Tree, name: &Name, child: Option<Tree>) -> Result<(), Memory>
    requires { below name.now side.old ≡ None }
    ensures { OnOk result (side.new ≡ with_side name.now child side.old) }
{
    match child {
        Some(child) => side.insert(name.copy()?, child),
        None => Ok(()),
    }
}

fn put_archive(archive: &mut Archive, name: &Name, child: Archive) -> Result<(), Memory>
    requires present { state archive.old [] ≡ Present }
    requires fresh { under name.now archive.old ≡ None }
    ensures { OnOk result (archive.new ≡ with_archive name.now child archive.old) }
{
    if let State::Missing = child.root() {
        return Ok(());
    }
    archive.insert(name.copy()?, child)
}

// Puts what stands under a name into all that is made.
fn put(made: &mut Trees, name: Name, here: Sides) -> Result<(), Memory>
    requires present { state made.old.archive [] ≡ Present }
    requires fresh { under name made.old.archive ≡ None }
    requires fresh_left { below name made.old.left ≡ None }
    requires fresh_right { below name made.old.right ≡ None }
    requires held { state made.old.held [] ≡ Present }
    requires fresh_held { under name made.old.held ≡ None }
    ensures outcome { OnOk result (outcome_of made.new ≡ with_trio name (sides_of here) made.old.archive made.old.left made.old.right) }
    ensures held { OnOk result (made.new.held ≡ with_archive name here.held made.old.held) }
{
    let Sides {
        archive,
        left,
        right,
        held,
    } = here;
    put_archive(&mut made.archive, &name, archive)?;
    put_side(&mut made.left, &name, left)?;
    put_side(&mut made.right, &name, right)?;
    put_archive(&mut made.held, &name, held)
}

// What becomes of two sides where the archive is marked.
fn at_mark(alloc: Global, archive: Archive, left: Tree, right: Tree) -> Result<Trees, Memory>
    requires { state archive [] ≡ Marked }
    ensures outcome { IfOk result (λ o. (s : SchemaValue) (i : NodeId) → AreMembers s i (views (given archive left right)) → IsOutcome s i (given archive left right) (outcome_of o)) }
    ensures held { IfOk result (λ o. Holds archive o.archive o.held) }
{
    if left.same(&right) {
        return agreed(alloc, archive, left, right);
    }
    Ok(stopped(alloc, archive, left, right))
}

// What becomes of a name that one side has, or both.
#[cycle(reconciling)]
fn at_name(
    alloc: Global,
    schema: &Schema,
    id: NodeId,
    archive: Archive,
    left: Option<Tree>,
    right: Option<Tree>,
) -> Result<Sides, Memory>
    requires in_range { id.place < length schema.now.nodes }
    requires no_twins { HasNoTwins schema.now }
    requires there { IsInEither left right }
    requires members { AreMembers schema.now id (views (record { archive = archive; left = left; right = right })) }
    ensures outcome { IfOk result (λ r. IsOutcome schema.now id (record { archive = archive; left = left; right = right }) (sides_of r)) }
    ensures held { IfOk result (λ r. Holds archive r.archive r.held) }
{
    match (left, right) {
        (Some(left), Some(right)) => {
            let made = at_node(alloc, schema, id, archive, left, right)?;
            Ok(Sides::of(made))
        }
        (Some(left), None) => left_alone(alloc, archive, left),
        (None, Some(right)) => right_alone(alloc, archive, right),
        (None, None) => unreachable!(),
    }
}

/// Reconciles the two sides of a node.
#[cycle(reconciling)]
pub fn at_node(
    alloc: Global,
    schema: &Schema,
    id: NodeId,
    archive: Archive,
    left: Tree,
    right: Tree,
) -> Result<Trees, Memory>
    requires in_range { id.place < length schema.now.nodes }
    requires no_twins { HasNoTwins schema.now }
    requires members { AreMembers schema.now id (views (given archive left right)) }
    ensures outcome { IfOk result (λ o. IsOutcome schema.now id (given archive left right) (outcome_of o)) }
    ensures held { IfOk result (λ o. Holds archive o.archive o.held) }
{
    if let State::Marked = archive.root() {
        return at_mark(alloc, archive, left, right);
    }
    if left.depth() <= SHALLOW {
        if left.same(&right) {
            return agreed(alloc, archive, left, right);
        }
    }
    if !are_permitted(alloc, schema, id, &archive, &left, &right)? {
        return Ok(stopped(alloc, archive, left, right));
    }
    at_names(alloc, schema, id, archive, left, right)
}

// The same, name by name, where both sides may have the names that they are to have.
#[cycle(reconciling)]
fn at_names(
    alloc: Global,
    schema: &Schema,
    id: NodeId,
    archive: Archive,
    left: Tree,
    right: Tree,
) -> Result<Trees, Memory>
    requires in_range { id.place < length schema.now.nodes }
    requires no_twins { HasNoTwins schema.now }
    requires members { AreMembers schema.now id (views (given archive left right)) }
    requires unmarked { state archive [] ≢ Marked }
    requires permitted { ArePermitted schema.now id (views (given archive left right)) }
    ensures outcome { IfOk result (λ o. IsOutcome schema.now id (given archive left right) (outcome_of o)) }
    ensures held { IfOk result (λ o. Holds archive o.archive o.held) }
{
    let mut made = with_room(alloc, left.count().max(right.count()))?;
    let mut old_rest = VecDeque::from_vec(archive.into_edges());
    let mut left_rest = VecDeque::from_vec(left.into_edges());
    let mut right_rest = VecDeque::from_vec(right.into_edges());
    while let Some(taken) = take_next(&mut left_rest, &mut right_rest) {
        let child = schema.child(id, &taken.name);
        let under = take_under(alloc, &mut old_rest, &taken.name);
        let here = at_name(alloc, schema, child, under, taken.left, taken.right)?;
        put(&mut made, taken.name, here)?;
    }
    without_nothing(alloc, &mut made);
    Ok(made)
}

// Nothing is held where nothing is marked, so that the node above needn't hold it.
fn without_nothing(alloc: Global, made: &mut Trees)
    requires new { state made.old.archive [] ≡ Present }
    requires held { state made.old.held [] ≡ Present }
    ensures outcome { outcome_of made.new ≡ outcome_of made.old }
    ensures held { (old : ArchiveValue) → Holds old made.old.archive made.old.held → Holds old made.new.archive made.new.held }
{
    if made.held.count() == 0 {
        made.held = Archive::missing(alloc);
    }
}
