//! The schema of what a node of a table stands for.
//!
//! Its nodes are those that are reached from the node, tidied and without repeated shapes, those that are the same
//! once, in the order of a first visit that goes depth first (`hm_types_rules/specs/Numbering`). The visit keeps a
//! stack of nodes and the numbers of their classes (`visited`, `specs/Visiting`), and then each visited node is written
//! once (`written`, `specs/Writing`).
//!
//! Proved: `numbered` gives the schema that a sound form is written as, from a table with the classes of its nodes; it
//! is well formed, and its nodes have no twins exactly where the form has none (`proofs/Twins`). Its test stands in
//! `hm_lens_cases`.
#![tactic(auto)]

mod distinct;
mod marks;
mod plain;
mod pushing;
mod schemas;
mod visited;
mod written;

pub use plain::is_plain;
pub use schemas::numbered;
