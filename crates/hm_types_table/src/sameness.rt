//! Which nodes are the same.
ghost use Rattle.std.specs.Prelude.{◌↔◌, ◌<◌, IsTrue, length};
ghost use Rattle.hm_types_forms.specs.Forms.{form};
ghost use Rattle.hm_types_forms.specs.SameForms.{IsSame};

use crate::table::Table;
use hm_schema::NodeId;

/// Whether two nodes are the same: what they stand for has, on each way down, equal sets of shapes and of twins, the same
/// names and one class of all other names.
pub fn same(table: &Table, one: NodeId, two: NodeId) -> bool
    requires one { one.place < length table.now }
    requires two { two.place < length table.now }
    ensures { IsTrue result ↔ IsSame (form table.now one) (form table.now two) }
{
    let classes = table.classes();
    classes[one.place] == classes[two.place]
}
