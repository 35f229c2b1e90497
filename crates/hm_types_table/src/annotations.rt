//! What a table keeps beside its nodes.
ghost use Rattle.std.specs.Prelude.{◌≡◌, ◌<◌, ◌++◌, ◌∷◌, [], true, Some, None, length, slice_get, vec_len, vec_capacity, IfOk, IfSome, OnOk, All};
ghost use Rattle.hm_schema.specs.Numbering.{IsNumbering};
ghost use Rattle.hm_schema.specs.Labels.{label_cmp};
ghost use Rattle.hm_types_table.specs.Tables.{AreFormed};
ghost use Rattle.hm_types_table.specs.Classes.{HasOutline, IsClassFor, AreClassed, Keeps, kind_label};

use crate::edges::{classes_at, edges_left};
use crate::graph::{graph_of, outlines_of, places};
use crate::kind::NodeKind;
use crate::outline::{Outline, outline_of};
use crate::seats::Seats;
use hm_graph_classes::Reduced;
use hm_schema::{Label, NodeId};
use hm_tree::{Class, Memory};
use std::alloc::Global;
use std::collections::BTreeMap;

/// What is kept beside nodes, by which it is known which of them are the same.
#[derive(Drop)]
pub struct Annotations {
    /// The numbers of labels.
    pub numbers: BTreeMap<Label, u64>,
    pub outlines: Vec<Outline>,
    /// The place of the outline of each node.
    pub seen: Vec<usize>,
    /// The graph of the classes.
    pub reduced: Reduced,
    /// The class of each node.
    pub classes: Vec<usize>,
}

impl Annotations {
    /// What is kept beside some nodes.
    pub fn of(alloc: Global, nodes: &Seats) -> Result<Annotations, Memory>
        requires { AreFormed nodes.now }
        ensures { IfOk result (AreClassed nodes.now) }
    {
        let mut numbers = BTreeMap::new(alloc);
        let outlines = outlines_of(alloc, nodes, &mut numbers)?;
        let graph = graph_of(alloc, nodes, &outlines)?;
        let (reduced, classes) = Reduced::of(alloc, &graph)?;
        let seen = places(alloc, outlines.len())?;
        Ok(Annotations {
            numbers,
            outlines,
            seen,
            reduced,
            classes,
        })
    }

    /// Adds the outline of nodes of a kind with a class of all other names: its place.
    pub fn outlined(&mut self, kind: &NodeKind, class: Option<Class>) -> Result<usize, Memory>
        requires { IsNumbering label_cmp self.old.numbers }
        ensures keeps { Keeps self.old self.new }
        ensures outline { IfOk result (λ seen. HasOutline self.new seen (kind_label kind.now class)) }
    {
        let outline = outline_of(kind, class, &mut self.numbers)?;
        let seen = self.outlines.len();
        self.outlines.push(outline)?;
        Ok(seen)
    }

    /// The class of a node with an outline, whose names lead to these nodes.
    pub fn found(
        &mut self,
        seen: usize,
        next: &[NodeId],
        other: Option<(Class, NodeId)>,
    ) -> Result<usize, Memory>
        requires seen { seen < length self.old.outlines.items }
        requires count { (o : Outline) → slice_get self.old.outlines.items seen ≡ Some o → length o.standing.items ≡ length next.now }
        requires next { All (λ j. j.place < length self.old.classes.items) next.now }
        requires other { IfSome other (λ o. o.1.place < length self.old.classes.items) }
        requires classes { All (λ c. c < length self.old.reduced) self.old.classes.items }
        ensures keeps { Keeps self.old self.new }
        ensures class { IfOk result (λ class. IsClassFor self.new seen class next.now other) }
    {
        let outline = &self.outlines[seen];
        let alloc = *self.outlines.allocator();
        let edges = edges_left(alloc, outline, next, other)?;
        let edges = classes_at(alloc, &self.classes, &edges)?;
        Ok(self.reduced.add(outline.label, edges)?)
    }

    /// The same of a node with two names that stand, of which the second leads to the node itself.
    pub fn found_loop(&mut self, seen: usize, first: NodeId) -> Result<usize, Memory>
        requires seen { seen < length self.old.outlines.items }
        requires first { first.place < length self.old.classes.items }
        requires classes { All (λ c. c < length self.old.reduced) self.old.classes.items }
        ensures keeps { Keeps self.old self.new }
        ensures class { IfOk result (λ class. (j : NodeId) → j.place ≡ length self.old.classes.items → (o : Outline) → slice_get self.old.outlines.items seen ≡ Some o → o.standing.items ≡ true ∷ true ∷ [] → IsClassFor self.new seen class (first ∷ j ∷ []) None) }
    {
        let alloc = *self.outlines.allocator();
        let label = self.outlines[seen].label;
        let class = self.classes[first.place];
        Ok(self.reduced.add_loop(alloc, label, class)?)
    }

    /// Makes room for a node.
    pub fn room(&mut self) -> Result<(), Memory>
        ensures keeps { Keeps self.old self.new }
        ensures numbers { self.new.numbers ≡ self.old.numbers }
        ensures outlines { self.new.outlines ≡ self.old.outlines }
        ensures reduced { self.new.reduced ≡ self.old.reduced }
        ensures seen { OnOk result (vec_len self.new.seen < vec_capacity self.new.seen) }
        ensures classes { OnOk result (vec_len self.new.classes < vec_capacity self.new.classes) }
    {
        self.seen.reserve(1)?;
        self.classes.reserve(1)?;
        Ok(())
    }

    /// Puts the outline and the class of a node behind those of the others.
    pub fn put(&mut self, seen: usize, class: usize)
        requires seen { vec_len self.old.seen < vec_capacity self.old.seen }
        requires classes { vec_len self.old.classes < vec_capacity self.old.classes }
        ensures numbers { self.new.numbers ≡ self.old.numbers }
        ensures outlines { self.new.outlines ≡ self.old.outlines }
        ensures reduced { self.new.reduced ≡ self.old.reduced }
        ensures seen { self.new.seen.items ≡ self.old.seen.items ++ seen ∷ [] }
        ensures classes { self.new.classes.items ≡ self.old.classes.items ++ class ∷ [] }
    {
        // There is room.
        let _ = self.seen.push(seen);
        let _ = self.classes.push(class);
    }
}
