//! When each kind of lens fits its trees and its views: the laws from which it follows that a whole lens does.
//!
//! A lens fits a set of trees and a set of views where it shows one view of each tree, puts one tree of each view, and
//! meets the laws (`hm_terms/specs/Fitting`). The theorems speak of sets of trees (`hm_tree_parts/specs/Sets`), so that
//! no schema is mentioned, and of trees up to a depth (`specs/Bounded`), so that definitions may call one another. This
//! crate has theorems alone.
//!
//! Proved: each further kind of lens fits where its parts do: on each child, on named children, on each item, on the
//! two parts of a fork, on the two sides of a conditional, with a copied, a merged or another name, and for a call
//! where the body fits. Where no definition is in a bad cycle, each call falls in one of three numbers
//! (`proofs/Ranks`), so that what holds of a definition wherever it holds of those that it calls holds of all
//! (`proofs/Recursion`).
#![tactic(auto)]
