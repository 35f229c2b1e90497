//! The tree of links and folders of bookmarks, nested as their file has them.
//!
//! A `Node` is a link or a folder by what a tree shows of it: a link by its key and its address, a folder by its key and
//! the nodes that stand in it. `specs/Nodes` sees them as `hm_marks` has what stands in a folder. A reader hands in the
//! nodes of the two folders at the top of its file, and `bookmarks_tree` makes the tree of the whole, from inside out.
//! How many folders nest, and how deep the tree will be, is told first, without building it (`measures`): a tree that is
//! over a limit is never built. What else a file has is left to its reader.
//!
//! Proved: `bookmarks_tree` gives the tree of the nodes at each depth, within the limits of `hm_marks_schema`; where it
//! tells that a tree is too deep, there is a tree of the nodes, of which just so much is over the limits. What a format
//! keeps of bookmarks has the tree of what is seen of it, and as many folders nest in it (`proofs/Seen`).
#![tactic(auto)]

mod measures;
mod node;
#[cfg(test)]
mod tests;
mod tree;
mod whole;

pub use node::Node;
pub use whole::bookmarks_tree;
