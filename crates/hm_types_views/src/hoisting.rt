//! The view of a lens that hoists the child of a name.
ghost use Rattle.std.specs.Prelude.{◌<◌, ℕ, MatchOption, IfSome, length};
ghost use Rattle.hm_terms.specs.Lenses.{hoist};
ghost use Rattle.hm_types_forms.specs.Forms.{form};
ghost use Rattle.hm_types_rules.specs.Typing.{Types, Goes};
ghost use Rattle.hm_types_rules.specs.Faults.{Faults, at};

use hm_schema::NodeId;
use hm_tree::Name;
use hm_types_table::{Table, all_alone, child};

/// The node of a name, where every shape of a node requires this name alone.
pub fn hoisted(table: &Table, id: NodeId, name: &Name) -> Option<NodeId>
    requires { id.place < length table.now }
    ensures in_range { IfSome result (λ j. j.place < length table.now) }
    ensures goes { MatchOption result ((T : Types) (k : ℕ) → Faults T (hoist name.now) k (form table.now id) (at k 4)) (λ j. (T : Types) → Goes T (hoist name.now) (form table.now id) (form table.now j)) }
{
    let kind = table.at(id).0;
    if !kind.twins.is_empty() || !all_alone(&kind.shapes, name) {
        return None;
    }
    child(table, id, name)
}
