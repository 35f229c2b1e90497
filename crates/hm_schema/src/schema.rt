//! Schemas.
ghost use Rattle.std.specs.Prelude.{◌≡◌, ◌↔◌, ◌<◌, IsTrue, IsSome, Some, [], length, map, IfOk, IfSome};
ghost use Rattle.hm_tree.specs.States.{state};
ghost use Rattle.hm_schema.specs.Indexes.{IsIndexOf};
ghost use Rattle.hm_schema.specs.Values.{NodeValue, schema_value, node_value, node_at, child_at, reached};
ghost use Rattle.hm_schema.specs.Permitted.{PermitsAt, names_of};
ghost use Rattle.hm_schema.specs.WellFormed.{IsWellFormed, IsWellFormedNode};
ghost use Rattle.hm_schema.specs.Membership.{IsMember, IsAllowed, HasNoTwins, IsAnswer};

use crate::copies::copy_nodes;
use crate::index::{ShapeIndex, indexes_of};
use crate::named::Named;
use crate::narrowed::permits_by;
use crate::node::{Node, NodeId};
use crate::permitted::permits;
use crate::twins::have_twins;
use hm_tree::{Memory, Name, NameSet, Path, Tree};
use std::alloc::Global;
use std::marker::Model;

/// Well formed nodes that refer to one another, and the node of the root.
#[derive(Drop)]
pub struct Schema {
    nodes: Vec<Node>,
    root: NodeId,
    // Of the nodes from the first on; of those that are left, and where it is None, there is no index.
    indexes: Vec<Option<ShapeIndex>>,
}

impl Model for Schema {
    ghost use Rattle.hm_schema.specs.Values.{SchemaValue, schema_value};
    ghost use Rattle.hm_schema.specs.Indexes.{IsKept};
    ghost use Rattle.hm_schema.specs.contracts.node.Shape as shape;
    ghost use Rattle.std.specs.Coded.{codes};

    ghost Value = { SchemaValue };

    ghost coded = { Prim.hlevel (codes, shape.the_row.coded) };

    ghost view = { λ s. schema_value s.nodes.items s.root };

    ghost invariant = { λ s. IsKept s.nodes.items s.root s.indexes.items };
}

impl Schema {
    /// The schema of these nodes, without indexes of their shapes.
    pub fn new(nodes: Vec<Node>, root: NodeId) -> Schema
        requires { IsWellFormed (schema_value nodes.items root) }
        ensures { result ≡ schema_value nodes.items root }
    {
        let indexes = Vec::new(*nodes.allocator());
        Schema {
            nodes,
            root,
            indexes,
        }
    }

    /// The same schema, with indexes of the shapes of nodes that have several: it says sooner whether such a node permits
    /// names.
    pub fn indexed(self) -> Result<Schema, Memory>
        ensures { IfOk result (λ schema. schema ≡ self) }
    {
        let indexes = indexes_of(*self.nodes.allocator(), &self.nodes)?;
        Ok(Schema {
            nodes: self.nodes,
            root: self.root,
            indexes,
        })
    }

    /// An equal schema, without indexes.
    pub fn copy(&self, alloc: Global) -> Result<Schema, Memory>
        ensures { IfOk result (λ schema. schema ≡ self.now) }
    {
        Ok(Schema {
            nodes: copy_nodes(alloc, &self.nodes)?,
            root: self.root,
            indexes: Vec::new(alloc),
        })
    }

    /// The node of the root.
    pub fn root(&self) -> NodeId
        ensures root { result ≡ self.now.root }
        ensures in_range { result.place < length self.now.nodes }
    {
        self.root
    }

    /// The nodes.
    pub fn nodes(&self) -> &[Node]
        ensures nodes { map node_value result.now ≡ self.now.nodes }
        ensures well_formed { IsWellFormed self.now }
    {
        &self.nodes
    }

    /// The node at a place.
    pub fn node(&self, id: NodeId) -> &Node
        requires { id.place < length self.now.nodes }
        ensures node { node_at self.now id ≡ Some (node_value result.now) }
        ensures well_formed { IsWellFormedNode (length self.now.nodes) (node_value result.now) }
    {
        &self.nodes[id.place]
    }

    /// Whether the names of a tree, right below its root, are permitted at a node.
    pub fn permits(&self, id: NodeId, tree: &Tree) -> bool
        requires { id.place < length self.now.nodes }
        ensures { IsTrue result ↔ PermitsAt self.now id (names_of tree.now) }
    {
        self.permits_here(id, tree)
    }

    /// Whether a set of names is permitted at a node.
    pub fn permits_names(&self, id: NodeId, names: &NameSet) -> bool
        requires { id.place < length self.now.nodes }
        ensures { IsTrue result ↔ PermitsAt self.now id names.now }
    {
        self.permits_here(id, names)
    }

    // The same of what has names, by the index of the node where there is one.
    fn permits_here<N: Named>(&self, id: NodeId, names: &N) -> bool
        requires { id.place < length self.now.nodes }
        ensures { IsTrue result ↔ PermitsAt self.now id (N.names names.now) }
    {
        let node = self.node(id);
        match self.index(id) {
            Some(index) => permits_by(index, node, names),
            None => permits(node, names),
        }
    }

    // The index of a node, where there is one.
    fn index(&self, id: NodeId) -> Option<&ShapeIndex>
        ensures { IfSome result (λ index. (n : NodeValue) → node_at self.now id ≡ Some n → IsIndexOf index.now n) }
    {
        if id.place >= self.indexes.len() {
            return None;
        }
        match &self.indexes[id.place] {
            Some(index) => Some(index),
            None => None,
        }
    }

    /// Whether a tree is a member at the root.
    pub fn member(&self, tree: &Tree) -> bool
        ensures { IsTrue result ↔ IsMember self.now self.now.root (state (Some tree.now)) }
    {
        self.is_member(self.root, tree)
    }

    // Whether a tree is a member at a node.
    fn is_member(&self, id: NodeId, tree: &Tree) -> bool
        requires { id.place < length self.now.nodes }
        ensures { IsTrue result ↔ IsMember self.now id (state (Some tree.now)) }
    {
        if !self.allows(id, tree) {
            return false;
        }
        for place in 0..tree.count() {
            let (name, child) = tree.edge(place);
            if !self.is_member(self.child(id, name), child) {
                return false;
            }
        }
        true
    }

    // Whether the names of a tree are permitted at a node, and its twins are alike.
    fn allows(&self, id: NodeId, tree: &Tree) -> bool
        requires { id.place < length self.now.nodes }
        ensures { IsTrue result ↔ IsAllowed self.now id (state (Some tree.now)) [] }
    {
        let node = self.node(id);
        self.permits_here(id, tree) && have_twins(&node.twins, tree)
    }

    /// The node of a name that may stand at a node.
    pub fn child(&self, id: NodeId, name: &Name) -> NodeId
        requires in_range { id.place < length self.now.nodes }
        requires there { IsSome (child_at self.now id name.now) }
        ensures child { child_at self.now id name.now ≡ Some result }
        ensures in_range { result.place < length self.now.nodes }
    {
        self.node(id).child(name).unwrap()
    }

    /// The node of a path.
    pub fn at(&self, path: &Path) -> NodeId
        requires there { IsSome (reached self.now self.now.root path.now) }
        ensures node { reached self.now self.now.root path.now ≡ Some result }
        ensures in_range { result.place < length self.now.nodes }
    {
        let mut here = self.root;
        for name in &path.names {
            here = self.child(here, name);
        }
        here
    }

    /// The first path of a tree whose set of names isn't permitted, for schemas without twins: a path stands before
    /// its extensions, and siblings in the order of their names. None where the tree is a member.
    pub fn first_outside(&self, alloc: Global, tree: &Tree) -> Result<Option<Path>, Memory>
        requires { HasNoTwins self.now }
        ensures { IfOk result (IsAnswer self.now self.now.root (state (Some tree.now))) }
    {
        self.outside_from(alloc, self.root, tree)
    }

    // The same from a node on.
    fn outside_from(&self, alloc: Global, id: NodeId, tree: &Tree) -> Result<Option<Path>, Memory>
        requires in_range { id.place < length self.now.nodes }
        requires no_twins { HasNoTwins self.now }
        ensures { IfOk result (IsAnswer self.now id (state (Some tree.now))) }
    {
        if !self.permits(id, tree) {
            return Ok(Some(Path {
                names: Vec::new(alloc),
            }));
        }
        for place in 0..tree.count() {
            let (name, below) = tree.edge(place);
            if let Some(mut path) = self.outside_from(alloc, self.child(id, name), below)? {
                path.names.insert(0, name.copy()?)?;
                return Ok(Some(path));
            }
        }
        Ok(None)
    }
}
