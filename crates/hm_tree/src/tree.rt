//! Trees.
#![tactic(auto, using(crate::proofs::Sorted::seen))]

ghost use Rattle.std.specs.Prelude.{◌≡◌, ◌↔◌, IsTrue, T, ◌<◌, ◌≤◌, length, IfOk, OnOk, OnErr, IfErr, IfSome, slice_get, Some, None, option_copied};
ghost use Rattle.hm_tree.specs.Nodes.{node, are_edges, edges, below, with_edge, without_edge, depth, deepest, empty};
ghost use Rattle.hm_tree.specs.Edges.{IsPlaceOf, IsGapFor};
ghost use Rattle.hm_tree.specs.States.{state, at_path};
ghost use Rattle.hm_tree.specs.declared.archive.State.TheVariants.{Present};

use crate::edges::{insert_edge, place_of};
use crate::memory::Memory;
use crate::name::Name;
use crate::path::Path;
use std::alloc::Global;
use std::marker::Model;

/// The greatest depth of a tree that is read or written: so many edges of it lie one below another.
pub const DEEPEST: usize = 1000;

/// A finite map from names to trees.
#[derive(Drop)]
pub struct Tree {
    edges: Vec<(Name, Tree)>,
    deep: usize,
}

impl Model for Tree {
    ghost use Rattle.std.specs.Prelude.{false};
    ghost use Rattle.std.proofs.Common.{arith};
    ghost use Rattle.hm_tree.specs.Nodes.{Node, node, depth};
    ghost use Rattle.hm_tree.specs.NodeLaws.{node_code, falls};
    ghost use Rattle.hm_tree.specs.Edges.{IsKeptTree};

    ghost Value = { Node false };

    ghost coded = { node_code false };

    ghost view = { λ t. node t.edges.items };

    ghost invariant = { λ t. IsKeptTree t.edges.items t.deep };

    ghost size = { depth };

    ghost size_decreases = { λ t h. falls _ (λ e. Prim.omega arith) t.edges.items h.edges };
}

impl Tree {
    /// The tree without edges, which takes no memory.
    pub fn empty(alloc: Global) -> Tree
        ensures { result ≡ empty }
    {
        Tree {
            edges: Vec::new(alloc),
            deep: 0,
        }
    }

    /// The same, with room for so many edges.
    pub fn with_capacity(alloc: Global, capacity: usize) -> Result<Tree, Memory>
        ensures { IfOk result (λ tree. tree ≡ empty) }
    {
        Ok(Tree {
            edges: Vec::with_capacity(alloc, capacity)?,
            deep: 0,
        })
    }

    /// The tree with these edges, whose names rise.
    pub fn of_edges(edges: Vec<(Name, Tree)>) -> Result<Tree, Memory>
        requires { T (are_edges edges.items) }
        ensures { IfOk result (λ tree. tree ≡ node edges.items) }
    {
        let Some(deep) = depth_above(&edges) else {
            return Err(Memory);
        };
        Ok(Tree { edges, deep })
    }

    /// Its edges, in the order of their names.
    pub fn into_edges(self) -> Vec<(Name, Tree)>
        ensures { result.items ≡ edges self }
    {
        self.edges
    }

    /// The same, to be looked at.
    pub fn edges(&self) -> &[(Name, Tree)]
        ensures { result.now ≡ edges self.now }
    {
        &self.edges
    }

    /// The number of its edges.
    pub fn count(&self) -> usize
        ensures { result ≡ length (edges self.now) }
    {
        self.edges.len()
    }

    /// The edge at a place, in the order of names.
    pub fn edge(&self, place: usize) -> (&Name, &Tree)
        requires { place < length (edges self.now) }
        ensures { slice_get (edges self.now) place ≡ Some (result.0.now, result.1.now) }
    {
        let edge = &self.edges[place];
        (&edge.0, &edge.1)
    }

    /// The subtree under a name; none where there is no such edge.
    pub fn child(&self, name: &Name) -> Option<&Tree>
        ensures { option_copied result ≡ below name.now self.now }
    {
        match self.place(name) {
            Ok(at) => Some(&self.edges[at].1),
            Err(_) => None,
        }
    }

    /// The subtree at a path; none where nothing stands there.
    #[tactic(auto, using(crate::proofs::Paths::tree_steps))]
    pub fn at(&self, path: &Path) -> Option<&Tree>
        ensures { option_copied result ≡ at_path (Some self.now) path.now }
    {
        let mut here = self;
        for name in &path.names {
            match here.child(name) {
                Some(child) => here = child,
                None => return None,
            }
        }
        Some(here)
    }

    /// Whether something stands at a path.
    #[tactic(auto, using(crate::proofs::Paths::tree_state))]
    pub fn has(&self, path: &Path) -> bool
        ensures { IsTrue result ↔ (state (Some self.now) path.now ≡ Present) }
    {
        match self.at(path) {
            Some(_) => true,
            None => false,
        }
    }

    /// Adds an edge. A name greater than all others costs no move of edges.
    pub fn insert(&mut self, name: Name, child: Tree) -> Result<(), Memory>
        requires { below name self.old ≡ None }
        ensures ok { OnOk result (self.new ≡ with_edge name child self.old) }
        ensures err { OnErr result (self.new ≡ self.old) }
    {
        match self.place(&name) {
            Ok(_) => Ok(()),
            Err(at) => {
                let below = match child.deep.checked_add(1) {
                    Some(below) => below,
                    None => return Err(Memory),
                };
                name.utf8();
                insert_edge(&mut self.edges, at, name, child)?;
                self.deep = self.deep.max(below);
                Ok(())
            }
        }
    }

    /// Takes an edge out and gives what stood at its end; none where there is no edge of this name.
    pub fn without(&mut self, name: &Name) -> Option<Tree>
        ensures taken { result ≡ below name.now self.old }
        ensures left { self.new ≡ without_edge name.now self.old }
    {
        match self.place(name) {
            Ok(at) => {
                let (_, child) = self.edges.remove(at);
                if child.deep + 1 == self.deep {
                    self.deep = deepest(&self.edges, self.deep);
                }
                Some(child)
            }
            Err(_) => None,
        }
    }

    /// The allocator that its edges are kept by.
    pub fn allocator(&self) -> Global {
        *self.edges.allocator()
    }

    // Where a name is, or where it would go.
    fn place(&self, name: &Name) -> Result<usize, usize>
        ensures found { IfOk result (IsPlaceOf name.now (edges self.now)) }
        ensures absent { IfErr result (IsGapFor name.now (edges self.now)) }
    {
        place_of(&self.edges, name)
    }

    /// How many edges lie one below another.
    pub fn depth(&self) -> usize
        ensures { result ≡ depth self.now }
    {
        self.deep
    }

    /// Whether the two are equal.
    pub fn same(&self, other: &Tree) -> bool
        ensures { IsTrue result ↔ (self.now ≡ other.now) }
    {
        if self.edges.len() != other.edges.len() {
            return false;
        }
        for at in 0..self.edges.len() {
            let one = &self.edges[at];
            let two = &other.edges[at];
            if !one.0.same(&two.0) || !one.1.same(&two.1) {
                return false;
            }
        }
        true
    }

    /// An equal tree.
    pub fn copy(&self) -> Result<Tree, Memory>
        ensures { IfOk result (λ tree. tree ≡ self.now) }
    {
        let mut edges = Vec::with_capacity(*self.edges.allocator(), self.edges.len())?;
        for edge in &self.edges {
            let name = edge.0.copy()?;
            let tree = edge.1.copy()?;
            edges.push((name, tree))?;
        }
        Ok(Tree {
            edges,
            deep: self.deep,
        })
    }
}

// The depth that edges make; none where that is no `usize`.
fn depth_above(edges: &[(Name, Tree)]) -> Option<usize>
    ensures { IfSome result (λ deep. deep ≡ deepest edges.now) }
{
    let mut deep = 0;
    for edge in edges {
        deep = deep.max(edge.1.depth().checked_add(1)?);
    }
    Some(deep)
}

// The depth that edges make, of which a bound is known. The first edge as deep as the bound ends the search.
fn deepest(edges: &[(Name, Tree)], bound: usize) -> usize
    requires { deepest edges.now ≤ bound }
    ensures { result ≡ deepest edges.now }
{
    let mut deep = 0;
    for edge in edges {
        deep = deep.max(edge.1.depth() + 1);
        if deep == bound {
            return deep;
        }
    }
    deep
}
