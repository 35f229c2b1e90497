//! Nodes as a table keeps them: each has a vertex, and many may share a kind.
ghost use Rattle.std.specs.Prelude.{◌≡◌, ◌+◌, ◌<◌, ◌++◌, ◌∷◌, [], Some, length, slice_get, OnOk, OnErr, IfOk, All, map};
ghost use Rattle.std.specs.List.Sorted.{IsStrictlySortedBy};
ghost use Rattle.hm_tree.specs.Names.{name_cmp};
ghost use Rattle.hm_schema.specs.Values.{NodeValue, node_value};
ghost use Rattle.hm_schema.specs.WellFormed.{IsWellFormedNode};
ghost use Rattle.hm_types_table.specs.Tables.{AreFormed, seat, seated, shifted, replaced, CanReplace};

use crate::kind::NodeKind;
use crate::nodes::{kind_of, vertex_of};
use crate::vertex::Vertex;
use hm_schema::{Node, NodeId};
use hm_tree::{Class, Memory};
use std::alloc::Global;
use std::marker::Model;

/// Nodes that refer to one another.
#[derive(Drop)]
pub struct Seats {
    kinds: Vec<NodeKind>,
    vertices: Vec<Vertex>,
}

impl Model for Seats {
    ghost use Rattle.hm_types_table.specs.Tables.{Nodes, rows, IsTable};
    ghost use Rattle.hm_schema.specs.contracts.node.Shape as shape;
    ghost use Rattle.std.specs.Coded.{codes};

    ghost Value = { Nodes };

    ghost coded = { Prim.hlevel (codes, shape.the_row.coded) };

    ghost view = { λ t. rows t.kinds.items t.vertices.items };

    ghost invariant = { λ t. IsTable t.kinds.items t.vertices.items };
}

impl Seats {
    /// No nodes.
    pub fn new(alloc: Global) -> Seats
        ensures value { result ≡ [] }
        ensures formed { AreFormed result }
    {
        Seats {
            kinds: Vec::new(alloc),
            vertices: Vec::new(alloc),
        }
    }

    /// How many nodes there are.
    pub fn count(&self) -> usize
        ensures count { result ≡ length self.now }
        ensures formed { AreFormed self.now }
    {
        self.vertices.len()
    }

    /// A node, as its kind and its vertex.
    pub fn at(&self, id: NodeId) -> (&NodeKind, &Vertex)
        requires { id.place < length self.now }
        ensures node { slice_get self.now id.place ≡ Some (seat result.0.now result.1.now) }
        ensures count { length result.1.now.next.items ≡ length result.0.now.names.items }
        ensures ascending { IsStrictlySortedBy name_cmp result.0.now.names.items }
        ensures formed { AreFormed self.now }
    {
        let vertex = &self.vertices[id.place];
        (&self.kinds[vertex.kind], vertex)
    }

    /// Adds a node of a new kind, whose edges may lead to the node itself.
    pub fn add(
        &mut self,
        kind: NodeKind,
        next: Vec<NodeId>,
        other: Option<(Class, NodeId)>,
    ) -> Result<NodeId, Memory>
        requires count { length next.items ≡ length kind.names.items }
        requires well { IsWellFormedNode (length self.old + 1) (seated kind next.items other) }
        ensures place { IfOk result (λ j. j.place ≡ length self.old) }
        ensures node { OnOk result (self.new ≡ self.old ++ seated kind next.items other ∷ []) }
        ensures err { OnErr result (self.new ≡ self.old) }
        ensures formed { AreFormed self.new }
    {
        let place = self.vertices.len();
        let vertex = Vertex {
            kind: self.kinds.len(),
            next,
            other,
        };
        self.kinds.push(kind)?;
        self.vertices.push(vertex)?;
        Ok(NodeId { place })
    }

    /// Adds a node of the kind of another one over other nodes.
    pub fn add_like(
        &mut self,
        id: NodeId,
        next: Vec<NodeId>,
        other: Option<(Class, NodeId)>,
    ) -> Result<NodeId, Memory>
        requires { CanReplace self.old id next.items other }
        ensures place { IfOk result (λ j. j.place ≡ length self.old) }
        ensures node { OnOk result ((n : NodeValue) → slice_get self.old id.place ≡ Some n → self.new ≡ self.old ++ replaced n next.items other ∷ []) }
        ensures err { OnErr result (self.new ≡ self.old) }
        ensures formed { AreFormed self.new }
    {
        let place = self.vertices.len();
        let kind = self.vertices[id.place].kind;
        self.vertices.push(Vertex { kind, next, other })?;
        Ok(NodeId { place })
    }

    /// Adds the nodes of a schema, whose references are to one another.
    pub fn add_nodes(&mut self, alloc: Global, nodes: &[Node]) -> Result<(), Memory>
        requires { All (IsWellFormedNode (length nodes.now)) (map node_value nodes.now) }
        ensures nodes { OnOk result (self.new ≡ self.old ++ map (shifted (length self.old)) (map node_value nodes.now)) }
        ensures err { OnErr result (self.new ≡ self.old) }
        ensures formed { AreFormed self.new }
    {
        let by = self.vertices.len();
        let first = self.kinds.len();
        let mut kinds = Vec::new(alloc);
        let mut vertices = Vec::new(alloc);
        for node in nodes {
            let kind = first + kinds.len();
            kinds.push(kind_of(alloc, node)?)?;
            vertices.push(vertex_of(alloc, node, kind, by)?)?;
        }
        self.kinds.append(&mut kinds)?;
        self.vertices.append(&mut vertices)?;
        Ok(())
    }
}
