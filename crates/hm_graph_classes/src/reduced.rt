//! Reduced graphs, which grow.
ghost use Rattle.std.specs.Prelude.{◌≡◌, ◌<◌, ◌∷◌, [], IfOk, OnErr, All, length};
ghost use Rattle.hm_graph.specs.Same.{IsClosed};
ghost use Rattle.hm_graph_classes.specs.Reduced.{IsReduced, HasVertex, Grows, AreClasses};

use crate::keys::{known_of, loops_of, put};
use crate::quotient::quotient;
use hm_graph::Vertex;
use hm_tree::Memory;
use std::alloc::Global;
use std::collections::BTreeMap;
use std::marker::Model;

/// A graph of which no two vertices are alike.
#[derive(Drop)]
pub struct Reduced {
    vertices: Vec<Vertex>,
    known: BTreeMap<(u64, Vec<usize>), usize>,
    loops: BTreeMap<(u64, usize), usize>,
}

impl Model for Reduced {
    ghost use Rattle.hm_graph.specs.Same.{Graph};
    ghost use Rattle.hm_graph_classes.specs.Indexed.{IsIndexed};

    ghost Value = { Graph };

    ghost view = { λ r. r.vertices.items };

    ghost invariant = { λ r. IsIndexed r.vertices.items r.known r.loops };
}

impl Reduced {
    /// The reduced graph of another graph, and the vertex of it that each vertex of that is.
    pub fn of(alloc: Global, graph: &[Vertex]) -> Result<(Reduced, Vec<usize>), Memory>
        requires { IsClosed graph.now }
        ensures classes { IfOk result (λ r. AreClasses graph.now r.0 r.1.items) }
        ensures reduced { IfOk result (λ r. IsReduced r.0) }
    {
        let (vertices, classes) = quotient(alloc, graph)?;
        let known = known_of(alloc, &vertices)?;
        let loops = loops_of(alloc, &vertices)?;
        let reduced = Reduced {
            vertices,
            known,
            loops,
        };
        Ok((reduced, classes))
    }

    /// The vertices.
    pub fn vertices(&self) -> &[Vertex]
        ensures vertices { result.now ≡ self.now }
        ensures reduced { IsReduced self.now }
    {
        &self.vertices
    }

    /// The vertex with a label and edges, which is added where it isn't there.
    pub fn add(&mut self, label: u64, next: Vec<usize>) -> Result<usize, Memory>
        requires { All (λ k. k < length self.old) next.items }
        ensures grows { Grows self.old self.new }
        ensures vertex { IfOk result (λ c. HasVertex self.new c label next.items) }
        ensures err { OnErr result (self.new ≡ self.old) }
        ensures reduced { IsReduced self.new }
    {
        let key = (label, next);
        if let Some(place) = self.known.get(&key) {
            return Ok(*place);
        }
        Ok(put(&mut self.vertices, &mut self.known, key)?)
    }

    /// The vertex with a label and two edges, of which the second leads to itself, which is added where it isn't there.
    pub fn add_loop(&mut self, alloc: Global, label: u64, first: usize) -> Result<usize, Memory>
        requires { first < length self.old }
        ensures grows { Grows self.old self.new }
        ensures vertex { IfOk result (λ c. HasVertex self.new c label (first ∷ c ∷ [])) }
        ensures err { OnErr result (self.new ≡ self.old) }
        ensures reduced { IsReduced self.new }
    {
        if let Some(place) = self.loops.get(&(label, first)) {
            return Ok(*place);
        }
        let place = self.vertices.len();
        let next = vec![in alloc; first, place]?;
        self.loops.insert((label, first), place)?;
        match put(&mut self.vertices, &mut self.known, (label, next)) {
            Ok(place) => Ok(place),
            Err(memory) => {
                self.loops.remove(&(label, first));
                Err(memory)
            }
        }
    }
}
