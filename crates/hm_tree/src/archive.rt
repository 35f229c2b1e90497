//! Archives.
#![tactic(auto, using(crate::proofs::Kept::seen))]

ghost use Rattle.std.specs.Prelude.{◌≡◌, ◌↔◌, IsTrue, T, ◌<◌, ◌+◌, length, OnOk, OnErr, IfOk, [], Some, None, is_some, slice_get, MatchOption};
ghost use Rattle.hm_tree.specs.Nodes.{node, are_edges, marked, empty};
ghost use Rattle.hm_tree.specs.Archives.{recorded, under, with_archive, edges_here, there, is_there};
ghost use Rattle.hm_tree.specs.Edges.{rank};
ghost use Rattle.hm_tree.specs.States.{state, at_path};
ghost use Rattle.hm_tree.specs.declared.archive.State.TheVariants.{Present};

use crate::edges::{insert_edge, place_near, place_of};
use crate::memory::Memory;
use crate::name::Name;
use crate::path::Path;
use crate::tree::Tree;
use std::alloc::Global;
use std::marker::Model;

/// What an archive or a replica has at a path. A replica is never marked.
#[derive(Clone, Copy, Debug, PartialEq, Eq)]
pub enum State {
    Missing,
    Present,
    Marked,
}

/// What the two replicas last agreed on: missing, or a tree in which some places are marked.
#[derive(Drop)]
pub struct Archive {
    root: State,
    edges: Vec<(Name, Archive)>,
}

impl Model for Archive {
    ghost use Rattle.std.specs.Prelude.{Option, true};
    ghost use Rattle.std.proofs.Common.{arith};
    ghost use Rattle.hm_tree.specs.Nodes.{Node};
    ghost use Rattle.hm_tree.specs.Archives.{archive_of, IsKeptArchive, archive_code, depth_here, archive_falls};

    ghost Value = { Option (Node true) };

    ghost coded = { archive_code };

    ghost view = { λ a. archive_of a.root a.edges.items };

    ghost invariant = { λ a. IsKeptArchive a.root a.edges.items };

    ghost size = { depth_here };

    ghost size_decreases = { λ a h. archive_falls _ (λ e. Prim.omega arith) a.root a.edges.items h };
}

impl Archive {
    /// Missing at the root.
    pub fn missing(alloc: Global) -> Archive
        ensures { result ≡ None }
    {
        Archive {
            root: State::Missing,
            edges: Vec::new(alloc),
        }
    }

    /// Marked at the root.
    pub fn marked(alloc: Global) -> Archive
        ensures { result ≡ Some marked }
    {
        Archive {
            root: State::Marked,
            edges: Vec::new(alloc),
        }
    }

    /// Present at the root and missing at every other path.
    pub fn present(alloc: Global) -> Archive
        ensures { result ≡ Some empty }
    {
        Archive {
            root: State::Present,
            edges: Vec::new(alloc),
        }
    }

    /// The same, with room for so many names.
    pub fn present_with_capacity(alloc: Global, capacity: usize) -> Result<Archive, Memory>
        ensures { IfOk result (λ archive. archive ≡ Some empty) }
    {
        Ok(Archive {
            root: State::Present,
            edges: Vec::with_capacity(alloc, capacity)?,
        })
    }

    /// Present at the root, with these names, which rise, and what stands there, of which nothing is missing.
    pub fn of_edges(edges: Vec<(Name, Archive)>) -> Archive
        requires edges { T (are_edges (there edges.items)) }
        requires there { T (is_there edges.items) }
        ensures { result ≡ Some (node (there edges.items)) }
    {
        Archive {
            root: State::Present,
            edges,
        }
    }

    /// Its names right below a present root, in their order, and what stands there.
    pub fn into_edges(self) -> Vec<(Name, Archive)>
        ensures { result.items ≡ edges_here self }
    {
        self.edges
    }

    /// What it has at its root.
    pub fn root(&self) -> State
        ensures { result ≡ state self.now [] }
    {
        self.root
    }

    /// The number of names right below a present root; 0 where the root is missing or marked.
    pub fn count(&self) -> usize
        ensures { result ≡ length (edges_here self.now) }
    {
        self.edges.len()
    }

    /// The name at a place, in the order of names, and the archive there.
    pub fn edge(&self, place: usize) -> (&Name, &Archive)
        requires { place < length (edges_here self.now) }
        ensures { slice_get (edges_here self.now) place ≡ Some (result.0.now, result.1.now) }
    {
        let edge = &self.edges[place];
        (&edge.0, &edge.1)
    }

    /// The archive at a name; none where the root isn't present or nothing stands at the name.
    pub fn child(&self, name: &Name) -> Option<&Archive>
        ensures { MatchOption result (under name.now self.now ≡ None) (λ child. (child.now ≡ under name.now self.now) × IsTrue (is_some child.now)) }
    {
        match place_of(&self.edges, name) {
            Ok(at) => Some(&self.edges[at].1),
            Err(_) => None,
        }
    }

    /// The same, looked for at a place first, and the place behind it.
    pub fn child_near(&self, name: &Name, near: usize) -> Option<(&Archive, usize)>
        ensures { MatchOption result (under name.now self.now ≡ None) (λ found. (found.0.now ≡ under name.now self.now) × IsTrue (is_some found.0.now) × (found.1 ≡ rank name.now (edges_here self.now) + 1)) }
    {
        match place_near(&self.edges, name, near) {
            Ok(at) => Some((&self.edges[at].1, at + 1)),
            Err(_) => None,
        }
    }

    /// The archive at a path; none where nothing stands there. A mark stands at each path below it.
    #[tactic(auto, using(crate::proofs::Paths::archive_steps))]
    pub fn at(&self, path: &Path) -> Option<&Archive>
        ensures { MatchOption result (at_path self.now path.now ≡ None) (λ found. (found.now ≡ at_path self.now path.now) × IsTrue (is_some found.now)) }
    {
        if let State::Missing = self.root {
            return None;
        }
        let mut here = self;
        for name in &path.names {
            if let State::Marked = here.root() {
                return Some(here);
            }
            match here.child(name) {
                Some(child) => here = child,
                None => return None,
            }
        }
        Some(here)
    }

    /// What it has at a path.
    #[tactic(auto, using(crate::proofs::Paths::archive_state))]
    pub fn state(&self, path: &Path) -> State
        ensures { result ≡ state self.now path.now }
    {
        match self.at(path) {
            Some(found) => found.root(),
            None => State::Missing,
        }
    }

    /// Puts an archive that isn't missing at a name.
    pub fn insert(&mut self, name: Name, child: Archive) -> Result<(), Memory>
        requires present { state self.old [] ≡ Present }
        requires absent { under name self.old ≡ None }
        requires there { IsTrue (is_some child) }
        ensures ok { OnOk result (self.new ≡ with_archive name child self.old) }
        ensures err { OnErr result (self.new ≡ self.old) }
    {
        match place_of(&self.edges, &name) {
            Ok(_) => Ok(()),
            Err(at) => {
                name.utf8();
                insert_edge(&mut self.edges, at, name, child)?;
                Ok(())
            }
        }
    }

    /// What a tree is in an archive: present at the tree's paths, without a mark.
    #[tactic(auto, using(crate::proofs::Depths::falling))]
    pub fn of_tree(tree: &Tree) -> Result<Archive, Memory>
        ensures { IfOk result (λ archive. archive ≡ Some (recorded tree.now)) }
    {
        let mut edges = Vec::with_capacity(tree.allocator(), tree.count())?;
        for place in 0..tree.count() {
            let (name, child) = tree.edge(place);
            let name = name.copy()?;
            let child = Archive::of_tree(child)?;
            edges.push((name, child))?;
        }
        Ok(Archive {
            root: State::Present,
            edges,
        })
    }

    /// Whether it is what a tree is in an archive.
    #[tactic(auto, using(crate::proofs::Depths::falling))]
    pub fn records(&self, tree: &Tree) -> bool
        ensures { IsTrue result ↔ (self.now ≡ Some (recorded tree.now)) }
    {
        let State::Present = self.root else {
            return false;
        };
        if self.edges.len() != tree.count() {
            return false;
        }
        for at in 0..self.edges.len() {
            let here = &self.edges[at];
            let (name, child) = tree.edge(at);
            if !here.0.same(name) || !here.1.records(child) {
                return false;
            }
        }
        true
    }

    /// An equal archive.
    pub fn copy(&self) -> Result<Archive, Memory>
        ensures { IfOk result (λ archive. archive ≡ self.now) }
    {
        let mut edges = Vec::with_capacity(*self.edges.allocator(), self.edges.len())?;
        for edge in &self.edges {
            let name = edge.0.copy()?;
            let child = edge.1.copy()?;
            edges.push((name, child))?;
        }
        Ok(Archive {
            root: self.root,
            edges,
        })
    }
}
