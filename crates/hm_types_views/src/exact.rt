//! The view of a lens that is constant.
ghost use Rattle.std.specs.Prelude.{◌≡◌, ◌<◌, IfOk, length};
ghost use Rattle.hm_tree.specs.Nodes.{edges};
ghost use Rattle.hm_types_forms.specs.Forms.{form};
ghost use Rattle.hm_types_rules.specs.Typing.{exactly};
ghost use Rattle.hm_types_table.specs.Tables.{AreFormed, Extends, keys};

use crate::listing::closed;
use hm_schema::NodeId;
use hm_tree::{Memory, Name, Tree};
use hm_types_table::{NodeKind, Table, copies};
use std::alloc::Global;

/// Adds the node of just one tree, behind those of its children.
pub fn exactly(alloc: Global, table: &mut Table, tree: &Tree) -> Result<NodeId, Memory>
    ensures extends { Extends table.old table.new }
    ensures formed { AreFormed table.new }
    ensures in_range { IfOk result (λ j. j.place < length table.new) }
    ensures exactly { IfOk result (λ j. form table.new j ≡ exactly tree.now) }
{
    let _ = table.count();
    let mut next = Vec::new(alloc);
    for place in 0..tree.count() {
        let (_, child) = tree.edge(place);
        next.push(exactly(alloc, table, child)?)?;
    }
    let names = tree_names(alloc, tree)?;
    let shapes = vec![in alloc; closed(alloc, copies(alloc, &names)?)?]?;
    let kind = NodeKind {
        shapes,
        names,
        twins: Vec::new(alloc),
    };
    Ok(table.add(kind, next, None)?)
}

// The names of a tree.
fn tree_names(alloc: Global, tree: &Tree) -> Result<Vec<Name>, Memory>
    ensures { IfOk result (λ v. v.items ≡ keys (edges tree.now)) }
{
    let mut names = Vec::new(alloc);
    for edge in tree.edges() {
        names.push(edge.0.copy()?)?;
    }
    Ok(names)
}
