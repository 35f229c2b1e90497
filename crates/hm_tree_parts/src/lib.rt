//! Trees taken apart and put together: edges, lists, and children under two names.
//!
//! A tree is a finite map from names to trees. These calls take off and put on an edge (`edge`), take lists apart and
//! build them (`list`), and show a child twice and merge the two again (`twin`). A list is the empty tree, or has its
//! first item under `*h` and the list of the others under `*t` (`specs/Lists`). Each call has a form that is lent its
//! trees, and a form that takes them over, for callers that are done with them. `specs/Sets` has the sets of trees that are spoken of above: by the names of a tree, by the trees
//! under each name, by parts, by sides, and those of lists. It knows no lenses and no schemas: the meaning of lenses
//! and the trees of formats are said by the same relations.
//!
//! Proved: each call takes trees apart or puts them together as its relation says (`specs/Edges`, `specs/Lists`, `specs/Twins`), whether it is lent
//! them or takes them over. Trees with the same children are equal (`proofs/Maps`).
#![tactic(auto)]

mod edge;
mod list;
mod twin;

pub use edge::{hoist, into_child, plunge, under, value, value_of};
pub use list::{into_items, lent_items, list_build, list_items, put_first, take_first};
pub use twin::{copied, copy_edge, drop_edge, merge_back, merge_into, with_copy, without_edge};
