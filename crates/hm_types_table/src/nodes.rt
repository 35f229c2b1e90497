//! Nodes of a schema as nodes of a table.
ghost use Rattle.std.specs.Prelude.{◌≡◌, ◌<◌, ◌+◌, ◌^◌, IfOk, IfSome, All, map};
ghost use Rattle.std.specs.Option.{option_map};
ghost use Rattle.hm_types_table.specs.Tables.{keys, shift};

use crate::kind::NodeKind;
use crate::twins::push_twins;
use crate::vertex::Vertex;
use hm_schema::{Node, NodeId, copy_shapes};
use hm_tree::{Class, Memory, Name};
use std::alloc::Global;

/// The kind of a node.
pub fn kind_of(alloc: Global, node: &Node) -> Result<NodeKind, Memory>
    ensures shapes { IfOk result (λ k. k.shapes.items ≡ node.now.shapes.items) }
    ensures names { IfOk result (λ k. k.names.items ≡ keys node.now.children.items) }
    ensures twins { IfOk result (λ k. k.twins.items ≡ node.now.twins.items) }
{
    let shapes = copy_shapes(alloc, &node.shapes)?;
    let names = names_of(alloc, &node.children)?;
    let mut twins = Vec::new(alloc);
    push_twins(&mut twins, &node.twins)?;
    Ok(NodeKind {
        shapes,
        names,
        twins,
    })
}

/// The vertex of a node of this kind, whose edges lead to nodes so many places further.
pub fn vertex_of(alloc: Global, node: &Node, kind: usize, by: usize) -> Result<Vertex, Memory>
    requires children { All (λ c. by + c.1.place < 2 ^ 64) node.now.children.items }
    requires other { IfSome node.now.other (λ o. by + o.1.place < 2 ^ 64) }
    ensures kind { IfOk result (λ v. v.kind ≡ kind) }
    ensures next { IfOk result (λ v. v.next.items ≡ map (λ c. shift by c.1) node.now.children.items) }
    ensures other { IfOk result (λ v. v.other ≡ option_map (λ o. (o.0, shift by o.1)) node.now.other) }
{
    let next = shifted_next(alloc, &node.children, by)?;
    Ok(Vertex {
        kind,
        next,
        other: shifted_other(node.other, by),
    })
}

fn shifted_other(other: Option<(Class, NodeId)>, by: usize) -> Option<(Class, NodeId)>
    requires { IfSome other (λ o. by + o.1.place < 2 ^ 64) }
    ensures { result ≡ option_map (λ o. (o.0, shift by o.1)) other }
{
    match other {
        Some((class, id)) => Some((
            class,
            NodeId {
                place: by + id.place,
            },
        )),
        None => None,
    }
}

fn shifted_next(
    alloc: Global,
    children: &[(Name, NodeId)],
    by: usize,
) -> Result<Vec<NodeId>, Memory>
    requires { All (λ c. by + c.1.place < 2 ^ 64) children.now }
    ensures { IfOk result (λ v. v.items ≡ map (λ c. shift by c.1) children.now) }
{
    let mut next = Vec::new(alloc);
    for child in children {
        next.push(NodeId {
            place: by + child.1.place,
        })?;
    }
    Ok(next)
}

fn names_of(alloc: Global, children: &[(Name, NodeId)]) -> Result<Vec<Name>, Memory>
    ensures { IfOk result (λ v. v.items ≡ keys children.now) }
{
    let mut names = Vec::new(alloc);
    for child in children {
        names.push(child.0.copy()?)?;
    }
    Ok(names)
}
