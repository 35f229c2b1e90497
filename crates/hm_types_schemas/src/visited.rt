//! The nodes that are reached, in the order of a first visit.
ghost use Rattle.std.specs.Prelude.{◌<◌, [], IfOk, length};
ghost use Rattle.hm_types_table.specs.Classes.{HaveClasses};
ghost use Rattle.hm_types_table.specs.Tables.{AreFormed};
ghost use Rattle.hm_types_schemas.specs.Visiting.{IsVisit};

use crate::marks::{mark, mark_at};
use crate::pushing::push_ends;
use hm_schema::NodeId;
use hm_tree::Memory;
use hm_types_table::Table;
use std::alloc::Global;

// The nodes that are reached from a root, of those that are the same the first, in the order of a visit that goes depth
// first, and their places by class.
pub fn visited(
    alloc: Global,
    table: &Table,
    classes: &[usize],
    root: NodeId,
) -> Result<(Vec<NodeId>, Vec<Option<usize>>), Memory>
    requires formed { AreFormed table.now }
    requires classes { HaveClasses table.now classes.now }
    requires root { root.place < length table.now }
    ensures { IfOk result (λ r. IsVisit table.now classes.now root r.0.items r.1.items []) }
{
    let mut order = Vec::new(alloc);
    let mut marks = Vec::new(alloc);
    let mut todo = vec![in alloc; root]?;
    while let Some(id) = todo.pop() {
        let class = classes[id.place];
        if mark_at(&marks, class).is_some() {
            continue;
        }
        mark(&mut marks, class, order.len())?;
        order.push(id)?;
        push_ends(&mut todo, table, id)?;
    }
    Ok((order, marks))
}
