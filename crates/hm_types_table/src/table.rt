//! Tables of nodes, which grow.
ghost use Rattle.std.specs.Prelude.{◌≡◌, ◌+◌, ◌<◌, ◌++◌, ◌∷◌, [], Some, None, IsTrue, length, slice_get, IfOk, OnOk, OnErr, All, map};
ghost use Rattle.std.specs.List.{list_any};
ghost use Rattle.std.specs.List.Sorted.{IsStrictlySortedBy};
ghost use Rattle.hm_tree.specs.Names.{name_cmp};
ghost use Rattle.hm_schema.specs.Values.{NodeValue, node_value};
ghost use Rattle.hm_schema.specs.WellFormed.{IsWellFormedNode};
ghost use Rattle.hm_schema.specs.Tidied.{has_name, lets_some_in, stands};
ghost use Rattle.hm_types_table.specs.Tables.{AreFormed, seat, seated, shifted, replaced, CanReplace};
ghost use Rattle.hm_types_table.specs.Classes.{HaveClasses};

use crate::annotations::Annotations;
use crate::kind::NodeKind;
use crate::outline::Outline;
use crate::seats::Seats;
use crate::vertex::{Vertex, class_of};
use hm_schema::{Node, NodeId};
use hm_tree::{Class, Memory};
use std::alloc::Global;
use std::marker::Model;

/// Nodes that refer to one another, of which it is known which are the same.
#[derive(Drop)]
pub struct Table {
    seats: Seats,
    annotations: Annotations,
}

impl Model for Table {
    ghost use Rattle.hm_types_table.specs.Tables.{Nodes};
    ghost use Rattle.hm_types_table.specs.Classes.{AreClassed};
    ghost use Rattle.hm_schema.specs.contracts.node.Shape as shape;
    ghost use Rattle.std.specs.Coded.{codes};

    ghost Value = { Nodes };

    ghost coded = { Prim.hlevel (codes, shape.the_row.coded) };

    ghost view = { λ t. t.seats };

    ghost invariant = { λ t. AreClassed t.seats t.annotations };
}

impl Table {
    /// The table of the nodes of two schemas, those of the second behind those of the first.
    pub fn of(alloc: Global, first: &[Node], second: &[Node]) -> Result<Table, Memory>
        requires first { All (IsWellFormedNode (length first.now)) (map node_value first.now) }
        requires second { All (IsWellFormedNode (length second.now)) (map node_value second.now) }
        ensures nodes { IfOk result (λ t. t ≡ map node_value first.now ++ map (shifted (length first.now)) (map node_value second.now)) }
        ensures formed { IfOk result AreFormed }
    {
        let mut seats = Seats::new(alloc);
        seats.add_nodes(alloc, first)?;
        seats.add_nodes(alloc, second)?;
        let annotations = Annotations::of(alloc, &seats)?;
        Ok(Table { seats, annotations })
    }

    /// How many nodes there are.
    pub fn count(&self) -> usize
        ensures count { result ≡ length self.now }
        ensures formed { AreFormed self.now }
    {
        self.seats.count()
    }

    /// A node, as its kind and its vertex.
    pub fn at(&self, id: NodeId) -> (&NodeKind, &Vertex)
        requires { id.place < length self.now }
        ensures node { slice_get self.now id.place ≡ Some (seat result.0.now result.1.now) }
        ensures count { length result.1.now.next.items ≡ length result.0.now.names.items }
        ensures ascending { IsStrictlySortedBy name_cmp result.0.now.names.items }
        ensures formed { AreFormed self.now }
    {
        self.seats.at(id)
    }

    // What a node is like when it is tidied.
    pub(crate) fn outline(&self, id: NodeId) -> &Outline
        requires { id.place < length self.now }
        ensures lets_in { (n : NodeValue) → slice_get self.now id.place ≡ Some n → result.now.lets_in ≡ lets_some_in n }
        ensures standing { (n : NodeValue) → slice_get self.now id.place ≡ Some n → result.now.standing.items ≡ map (λ c. stands n c.0) n.children }
    {
        &self.annotations.outlines[self.annotations.seen[id.place]]
    }

    /// The class of each node: nodes have equal ones exactly where what they stand for is the same.
    pub fn classes(&self) -> &[usize]
        ensures { HaveClasses self.now result.now }
    {
        &self.annotations.classes
    }

    /// Adds a node of a new kind.
    pub fn add(
        &mut self,
        kind: NodeKind,
        next: Vec<NodeId>,
        other: Option<(Class, NodeId)>,
    ) -> Result<NodeId, Memory>
        requires count { length next.items ≡ length kind.names.items }
        requires well { IsWellFormedNode (length self.old) (seated kind next.items other) }
        ensures place { IfOk result (λ j. j.place ≡ length self.old) }
        ensures node { OnOk result (self.new ≡ self.old ++ seated kind next.items other ∷ []) }
        ensures err { OnErr result (self.new ≡ self.old) }
        ensures formed { AreFormed self.new }
    {
        let seen = self.annotations.outlined(&kind, class_of(other))?;
        let class = self.annotations.found(seen, &next, other)?;
        self.annotations.room()?;
        let id = self.seats.add(kind, next, other)?;
        self.annotations.put(seen, class);
        Ok(id)
    }

    /// Adds a node of the kind of another one over other nodes.
    pub fn add_like(
        &mut self,
        id: NodeId,
        next: Vec<NodeId>,
        other: Option<(Class, NodeId)>,
    ) -> Result<NodeId, Memory>
        requires { CanReplace self.old id next.items other }
        ensures place { IfOk result (λ j. j.place ≡ length self.old) }
        ensures node { OnOk result ((n : NodeValue) → slice_get self.old id.place ≡ Some n → self.new ≡ self.old ++ replaced n next.items other ∷ []) }
        ensures err { OnErr result (self.new ≡ self.old) }
        ensures formed { AreFormed self.new }
    {
        let seen = self.annotations.seen[id.place];
        let class = self.annotations.found(seen, &next, other)?;
        self.annotations.room()?;
        let id = self.seats.add_like(id, next, other)?;
        self.annotations.put(seen, class);
        Ok(id)
    }

    /// Adds a node of a kind with two names, which stand in its shapes: the first leads to a node, and the second to the
    /// new node itself.
    pub fn add_loop(&mut self, kind: NodeKind, first: NodeId) -> Result<NodeId, Memory>
        requires first { first.place < length self.old }
        requires names { length kind.names.items ≡ 2 }
        requires stand { All (λ k. IsTrue (list_any (λ a. has_name a k) kind.shapes.items)) kind.names.items }
        requires well { (j : NodeId) → j.place ≡ length self.old → IsWellFormedNode (length self.old + 1) (seated kind (first ∷ j ∷ []) None) }
        ensures place { IfOk result (λ j. j.place ≡ length self.old) }
        ensures node { IfOk result (λ j. self.new ≡ self.old ++ seated kind (first ∷ j ∷ []) None ∷ []) }
        ensures err { OnErr result (self.new ≡ self.old) }
        ensures formed { AreFormed self.new }
    {
        let alloc = *kind.names.allocator();
        let itself = NodeId {
            place: self.seats.count(),
        };
        let next = vec![in alloc; first, itself]?;
        let seen = self.annotations.outlined(&kind, None)?;
        let class = self.annotations.found_loop(seen, first)?;
        self.annotations.room()?;
        let id = self.seats.add(kind, next, None)?;
        self.annotations.put(seen, class);
        Ok(id)
    }
}
