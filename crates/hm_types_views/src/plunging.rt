//! The view of a lens that plunges all under a name.
ghost use Rattle.std.specs.Prelude.{◌≡◌, ◌<◌, ◌∷◌, [], None, IfOk, length};
ghost use Rattle.std.specs.FinSet.{from_list};
ghost use Rattle.hm_terms.specs.Lenses.{plunge};
ghost use Rattle.hm_types_forms.specs.Forms.{form};
ghost use Rattle.hm_types_rules.specs.Typing.{Types, Goes};
ghost use Rattle.hm_schema_lists.specs.Plain.{exact_shape};
ghost use Rattle.hm_types_table.specs.Tables.{AreFormed, Extends};

use hm_schema::{NodeId, Shape};
use hm_tree::{Memory, Name, NameSet};
use hm_types_table::{NodeKind, Table};
use std::alloc::Global;

/// Adds a node with one name, which is required, over a node.
pub fn plunged(alloc: Global, table: &mut Table, id: NodeId, name: &Name) -> Result<NodeId, Memory>
    requires { id.place < length table.old }
    ensures extends { Extends table.old table.new }
    ensures formed { AreFormed table.new }
    ensures in_range { IfOk result (λ j. j.place < length table.new) }
    ensures goes { IfOk result (λ j. (T : Types) → Goes T (plunge name.now) (form table.old id) (form table.new j)) }
{
    let _ = table.at(id);
    let kind = alone(alloc, name)?;
    let mut next = Vec::new(alloc);
    next.push(id)?;
    Ok(table.add(kind, next, None)?)
}

// The kind of a node with one name, which is required.
fn alone(alloc: Global, name: &Name) -> Result<NodeKind, Memory>
    ensures shapes { IfOk result (λ k. k.shapes.items ≡ exact_shape (from_list (name.now ∷ [])) ∷ []) }
    ensures names { IfOk result (λ k. k.names.items ≡ name.now ∷ []) }
    ensures twins { IfOk result (λ k. k.twins.items ≡ []) }
{
    let mut required = Vec::new(alloc);
    required.push(name.copy()?)?;
    let mut shapes = Vec::new(alloc);
    shapes.push(Shape {
        required: NameSet::from_list(required)?,
        optional: NameSet::from_list(Vec::new(alloc))?,
        least: 0,
        most: Some(0),
    })?;
    let mut names = Vec::new(alloc);
    names.push(name.copy()?)?;
    Ok(NodeKind {
        shapes,
        names,
        twins: Vec::new(alloc),
    })
}
