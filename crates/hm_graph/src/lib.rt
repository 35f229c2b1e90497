//! Finite graphs, and which of their vertices are the same (bisimilar).
//!
//! A vertex has a label, and edges in an order. Two vertices are the same where some pairing of vertices holds them,
//! and paired vertices have equal labels and lead, edge by edge, to paired ones (`specs/Same`). That is so exactly
//! where they are alike on every way: from both of them a way, which says which edge to take next, leads nowhere, or to
//! vertices with equal labels and as many edges. It knows no trees and no schemas; from `hm_tree` it takes the word for
//! want of memory alone.
//!
//! Proved: `same` answers exactly whether two vertices of a finite graph are the same; they are exactly where they are
//! alike on every way (`proofs/Decided`).
#![tactic(auto)]

mod sameness;

pub use sameness::{Vertex, same};
