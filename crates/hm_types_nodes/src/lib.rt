//! What the nodes of a view are made of those of its source, for each kind of lens, and which trees stand at them.
//!
//! A node is taken over whatever its edges lead to, so that no schema is mentioned: where it is known which trees stand
//! at each of these, it is known which stand at the node (`hm_schema/specs/Standing`). For each kind of lens a module
//! of `specs` says how a node is parted, joined, branched, merged or copied, and a module of `proofs` shows which trees
//! stand at what comes of it, in the words of sets of trees (`hm_tree_parts/specs/Sets`). It knows no lenses. This
//! crate has definitions and theorems alone.
//!
//! Proved: for each kind of lens that has a node of its own, which trees stand at the nodes that the lenses inside it
//! are checked at, and at the node of its view: those of a fork (`proofs/Parting`, `proofs/Joining`), of a conditional
//! (`proofs/Branching`, `proofs/MergedNodes`), and of a child under another name too, or hidden.
#![tactic(auto)]
