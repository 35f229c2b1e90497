//! Schemas by numbers.
ghost use Rattle.std.specs.Prelude.{◌<◌, IfOk, length};
ghost use Rattle.hm_types_forms.specs.Forms.{form};
ghost use Rattle.hm_types_forms.specs.Sound.{IsSound};
ghost use Rattle.hm_types_rules.specs.Numbering.{IsNumbered};

use crate::visited::visited;
use crate::written::written;
use hm_schema::{NodeId, Schema};
use hm_tree::Memory;
use hm_types_table::Table;
use std::alloc::Global;

/// The schema of what a node of a table stands for.
pub fn numbered(alloc: Global, table: &Table, root: NodeId) -> Result<Schema, Memory>
    requires root { root.place < length table.now }
    requires sound { IsSound (form table.now root) }
    ensures { IfOk result (IsNumbered (form table.now root)) }
{
    let _ = table.at(root);
    let classes = table.classes();
    let (order, marks) = visited(alloc, table, classes, root)?;
    let nodes = written(alloc, table, classes, &marks, &order)?;
    Ok(Schema::new(nodes, NodeId { place: 0 }))
}
