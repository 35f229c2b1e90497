//! The nodes of lists, of values and of single trees, and which trees stand at them. There is no code here.
//!
//! At a list node an empty tree stands, or an item under `*h` and a list again under `*t` (`specs/ListNodes`); at a
//! value node stands a tree of one name, with nothing below it (`specs/Values`); and there are nodes at which all trees
//! have the same names, and those at which just one tree stands (`specs/Plain`). What is said here is said of a node
//! over whatever its edges lead to, so no schema is mentioned. The trees of formats and the views of lenses stand at
//! such nodes alike.
//!
//! Proved: the trees of a list node are the lists whose items are in the set of its first item (`proofs/ListNodes`),
//! those of a value node are the values of its class (`proofs/Values`), and which trees stand at nodes of given names,
//! of one edge and of one tree (`proofs/Plain`).
#![tactic(auto)]
