//! Whether the sides of a node may have the names that they are to have.
ghost use Rattle.std.specs.Prelude.{◌≡◌, ◌≢◌, ◌<◌, ◌↔◌, [], IfOk, IsTrue, length, false};
ghost use Rattle.hm_tree.specs.declared.archive.State.TheVariants.{Marked};
ghost use Rattle.hm_tree.specs.States.{state};
ghost use Rattle.hm_schema.specs.Permitted.{names_of};
ghost use Rattle.hm_outcome.specs.Trios.{given, views, AreMembers};
ghost use Rattle.hm_outcome.specs.Contested.{IsContested};
ghost use Rattle.hm_reconcile.specs.Naming.{ArePermitted};

use crate::carried::carried;
use hm_schema::{NodeId, Schema};
use hm_tree::{Archive, Memory, Tree};
use std::alloc::Global;

/// Whether a node permits the names that each of two sides is to have there.
pub fn are_permitted(
    alloc: Global,
    schema: &Schema,
    id: NodeId,
    archive: &Archive,
    left: &Tree,
    right: &Tree,
) -> Result<bool, Memory>
    requires in_range { id.place < length schema.now.nodes }
    requires members { AreMembers schema.now id (views (given archive.now left.now right.now)) }
    requires unmarked { state archive.now [] ≢ Marked }
    ensures permitted { IfOk result (λ yes. IsTrue yes → ArePermitted schema.now id (views (given archive.now left.now right.now))) }
    ensures contested { IfOk result (λ yes. yes ≡ false → IsContested schema.now id (views (given archive.now left.now right.now)) []) }
{
    // What a member has is permitted, and where both have the same names each keeps its own.
    if have_same_names(left, right) {
        return Ok(true);
    }
    let (left, right) = carried(alloc, archive, left, right)?;
    Ok(schema.permits_names(id, &left) && schema.permits_names(id, &right))
}

fn have_same_names(left: &Tree, right: &Tree) -> bool
    ensures { IsTrue result ↔ (names_of left.now ≡ names_of right.now) }
{
    if left.count() != right.count() {
        return false;
    }
    for place in 0..left.count() {
        if !left.edge(place).0.same(right.edge(place).0) {
            return false;
        }
    }
    true
}
