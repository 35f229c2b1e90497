//! Tables of nodes, on which lenses are typed.
//!
//! A table is a growing list of nodes that refer to one another (`table`). Nodes of one kind share its shapes, names
//! and twins, so that a node over other nodes costs its edges alone (`specs/Tables`). Each node gets a class as it is
//! added, so that it is known in a step which nodes are the same (`specs/Classes`). The nodes are kept in `seats`;
//! beside them, in `annotations`, each has an outline, which says what is left of it when it is tidied, and its class, which
//! is a vertex of a reduced graph (`hm_graph_classes`). What is asked of a node is in `looks`, `shapes` and `names`.
//! What a function says of a node it says of the form that the node stands for (`hm_types_forms`), which stays the same
//! as the table grows (`proofs/Grown`). It knows no lenses.
//!
//! Proved: a node of a new kind, one of the kind of another node, and one that leads to itself are added behind the
//! others, which stay (`Table::add`, `add_like`, `add_loop`). `same` decides in a step whether two nodes stand for the
//! same, `equal` whether they are the same part by part, and `member` decides whether a tree is a member of what a node
//! stands for. What is read off a node, as the node that a name leads to, is said of the node itself. Tests of nodes
//! that are the same stand in `hm_tree_cases`.
#![tactic(auto)]

mod annotations;
mod edges;
mod equality;
mod graph;
mod kind;
mod looks;
mod membership;
mod names;
mod nodes;
mod outline;
mod sameness;
mod seats;
mod shapes;
mod table;
mod twins;
mod vertex;

pub use equality::{equal, equal_ends, equal_others};
pub use kind::NodeKind;
pub use looks::{child, count, is_plain, lets_some_in, listed, lists, other, place_of, targets};
pub use membership::member;
pub use names::{all_listed, beside, copies, is_in};
pub use sameness::same;
pub use shapes::{all_alone, all_have, all_shut, has, is_bare, is_shut};
pub use table::Table;
pub use twins::push_twins;
pub use vertex::Vertex;
