//! The views of sides, against the schema that they are to meet.
ghost use Rattle.std.specs.Prelude.{OnOk};
ghost use Rattle.hm_run_files.specs.Steps.{Computes};
ghost use Rattle.hm_schema.specs.Standing.{Alike};
ghost use Rattle.hm_schema.specs.Membership.{IsMemberTree};
ghost use Rattle.hm_run_sides.specs.Sides.{ChecksView};

use crate::side::Side;
use hm_run_files::{FileFault, Refusal, Slot, Stop};
use hm_schema::Schema;
use hm_schema_same::same;
use std::alloc::Global;

/// Checks that the view of a side is the same as a schema; then they have the same members.
pub fn check_view(alloc: Global, slot: Slot, schema: &Schema, side: &Side) -> Result<(), Stop>
    ensures checks { Computes (ChecksView slot schema.now side.now.typed.view) result }
    ensures members { OnOk result (Alike (IsMemberTree schema.now) (IsMemberTree side.now.typed.view)) }
{
    let _ = schema.nodes();
    let _ = side.typed.view.nodes();
    if same(alloc, schema, &side.typed.view)? {
        return Ok(());
    }
    Err(Stop::Refused(Refusal::At(slot, FileFault::WrongView)))
}
