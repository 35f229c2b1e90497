//! The nodes of a table that the views of lenses begin with.
//!
//! For each kind of lens there is a function, in a file of its own, that decides exactly whether the lens has its
//! conditions at a node of a table (`hm_types_table`), and where it has, adds the node that the view begins with; a
//! fork and a conditional also have one that adds the nodes of the two parts at which the lenses inside them are
//! checked. The conditions are read off the kind of a node (`specs/Conditions`, `specs/Hiding`, `specs/Merging`,
//! `specs/Lists`). What a function says of a node it says of the form that the node stands for, in the words of the
//! rules of types (`hm_types_rules`), so that no caller needs to know how the node was made. Its code knows no terms.
//!
//! Proved: each function decides exactly whether a kind of lens has its conditions at a node, and where it has, adds
//! the node that the view begins with, which stands for the form that the rules say. There is a function for hoist,
//! plunge, copy, merge, the items and the view of a list, the two parts and the view of a fork, the two sides of a
//! conditional and the view that tells them apart, and the values of a text lens; `exactly` adds the nodes of one tree.
#![tactic(auto)]

mod branching;
mod copying;
mod exact;
mod hiding;
mod hoisting;
mod joining;
mod listing;
mod merging;
mod overlays;
mod parting;
mod plunging;
mod shaped;
mod values;

pub use branching::branched;
pub use copying::copied;
pub use exact::exactly;
pub use hiding::hidden;
pub use hoisting::hoisted;
pub use joining::joined;
pub use listing::{Items, items_of, list_of};
pub use merging::merged;
pub use parting::parted;
pub use plunging::plunged;
pub use values::valued;
