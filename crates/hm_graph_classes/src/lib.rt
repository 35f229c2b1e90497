//! Graphs of which no two vertices are alike, and which grow: a graph with its classes of alike vertices as vertices
//! (the quotient by bisimilarity).
//!
//! A graph has a reduced one, in which each class of its alike vertices is one vertex (`specs/Reduced`). To find the
//! classes, a partition of the vertices is refined until it stays as it is (`partition`, `specs/Partitions`): it begins
//! with numbers that take most of them apart (`apart`), in rounds that look only at what leads to what changed
//! (`calm`). The graph of the classes is in `quotient`, and the maps by which vertices are found are in `keys`. A
//! vertex that is added to a reduced graph is found there, if one with its label and its edges is there already; so it
//! stays reduced, and numbers of vertices stay what they are.
//!
//! Proved: a graph has a reduced one, in which each class of its vertices that are alike on every way is one vertex
//! (`Reduced::of`), and what is added to a reduced graph, over vertices of it or as a loop to itself, is found where it
//! is there already: so no two of its vertices are ever alike (`specs/Reduced`). Two vertices of the first graph are of
//! one class exactly where they are alike (`proofs/Classes`).
#![tactic(auto)]

mod apart;
mod calm;
mod keys;
mod partition;
mod quotient;
mod reduced;

pub use reduced::Reduced;
