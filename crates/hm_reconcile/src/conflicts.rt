//! The conflicts of a reconciling.
ghost use Rattle.std.specs.Prelude.{IfOk};
ghost use Rattle.hm_tree.specs.States.{state};
ghost use Rattle.hm_outcome.specs.Trios.{given, views};
ghost use Rattle.hm_reconcile.specs.Showing.{AreMarksContested, ShowConflicts};

use crate::marks::topmost_marks;
use crate::reasons::reason;
use hm_report::Conflict;
use hm_tree::{Archive, Memory, Tree};
use std::alloc::Global;

/// The conflicts at the topmost marks of a new archive, in the order of their paths.
pub fn conflicts_of(
    alloc: Global,
    archive: &Archive,
    left: &Tree,
    right: &Tree,
    marks: &Archive,
) -> Result<Vec<Conflict>, Memory>
    requires { AreMarksContested (views (given archive.now left.now right.now)) (state marks.now) }
    ensures { IfOk result (λ conflicts. ShowConflicts (views (given archive.now left.now right.now)) (state marks.now) conflicts.items) }
{
    let mut conflicts = Vec::new(alloc);
    for path in topmost_marks(alloc, marks)? {
        let why = reason(alloc, archive, left, right, &path)?;
        conflicts.push(Conflict { path, why })?;
    }
    Ok(conflicts)
}
