//! Links and folders of bookmarks as nodes of JSON, read and written anew.
//!
//! Chrome and Chromium keep bookmarks in a file of JSON. A link is an object with the type `url`, the strings `name` and
//! `url`; a folder has the type `folder`, a string `name` and an array of nodes as its `children` (`specs/Nodes`). Nodes
//! are numbered from 1, each before its children, and these before what follows it (`specs/Numbers`). The other members
//! of a node are hidden. What stands in a folder is told as `hm_marks` has it: a link by its members, and a folder by
//! its members but for its children.
//!
//! `nodes_of` reads the nodes of an array, with all in them, and counts them; a value that is no node stops it. For a
//! tree, `nodes_anew` writes the nodes of a folder anew, at each depth, and `folder_written` those of a folder's own node.
//! A node that survives is moved, and not copied, and keeps its members. `is_other_tree` asks whether a tree is another one
//! than that of a folder's nodes, without the tree of these, and stops at the first difference that it finds; where it
//! finds none there may still be one. What stands at the root of a file is left to its format.
//!
//! Proved: `nodes_of` reads exactly the nodes that there are, and tells the number of the first value that is none
//! (`specs/Reading`); `nodes_anew` and `folder_written` give the nodes of what `hm_marks` says is written anew for the
//! tree (`specs/Anew`); where `is_other_tree` says so, the tree hasn't all that stands in the folder (`specs/Seeking`).
//! Nodes that are written are read as what they were written of, an array has one reading at most, and one if each value
//! that is numbered is a node (`proofs/Spelled`, `proofs/NodesOnce`, `proofs/SomeNodes`).
#![tactic(auto)]

mod anew;
mod fault;
mod kind;
mod members;
mod reading;
mod seeking;
mod writing;

pub use fault::NodeFault;
pub use kind::{Kind, kind_of};
pub use members::{replace, set};
pub use reading::{count_one, nodes_of};
pub use seeking::is_other_tree;
pub use writing::{folder_written, nodes_anew};
