//! The nodes that definitions are declared with.
ghost use Rattle.std.specs.Prelude.{◌≡◌, ◌<◌, ◌+◌, ◌^◌, IfOk, All, map};
ghost use Rattle.hm_terms.specs.Programs.{definition_value};
ghost use Rattle.hm_types_table.specs.Tables.{shift};
ghost use Rattle.hm_types.specs.DeclaredNodes.{DeclaresAll};

use hm_schema::NodeId;
use hm_terms::Definition;
use hm_terms_cycles::add_name;
use hm_tree::{Memory, Name};
use std::alloc::Global;

/// The nodes of the sources and views of definitions, whose types stand behind so many nodes, in the order of their names.
pub fn declared_of(
    alloc: Global,
    definitions: &[Definition],
    by: usize,
) -> Result<Vec<(Name, (NodeId, NodeId))>, Memory>
    requires sources { All (λ d. by + d.source.place < 2 ^ 64) definitions.now }
    requires views { All (λ d. by + d.view.place < 2 ^ 64) definitions.now }
    ensures { IfOk result (λ v. DeclaresAll (map definition_value definitions.now) by v.items) }
{
    let mut declared = Vec::with_capacity(alloc, definitions.len())?;
    for definition in definitions {
        let types = (behind(definition.source, by), behind(definition.view, by));
        add_name(&mut declared, &definition.name, types)?;
    }
    Ok(declared)
}

/// A node of types that stand behind so many nodes.
pub fn behind(id: NodeId, by: usize) -> NodeId
    requires { by + id.place < 2 ^ 64 }
    ensures { result ≡ shift by id }
{
    NodeId {
        place: by + id.place,
    }
}
