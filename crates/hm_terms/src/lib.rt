//! What lenses mean: what they show of a tree, what they put into one, and what they keep of what they don't show.
//!
//! A lens goes between concrete trees and views. It shows a view of a tree (`specs/Shown`), and puts a changed view
//! back, with the tree from before or with none (`specs/Put`); what the view doesn't tell is kept from before
//! (`specs/Kept`). Each of the three is a relation with a rule or two for each kind of lens, and speaks of trees as
//! finite maps from names to what stands below them (`hm_tree_parts`). They follow Combinators for Bidirectional Tree
//! Transformations (TOPLAS 2007). When a lens fits its trees and views, so that it never fails on them and meets the
//! laws, is `specs/Fitting`, and which definitions could call one another without end is `specs/Calls`. Of code it has
//! the terms and the programs alone (`term`).
//!
//! Proved: a lens shows one view at the most (`proofs/OneShown`) and puts one tree at the most (`proofs/OnePut`), and
//! shows or puts none where it should not (`proofs/Refused`); what it keeps is read back of two trees
//! (`proofs/Keeping`); the first kinds of lenses meet the laws, and a sequence where its two parts do (`proofs/Laws`).
//! Examples on small trees (`proofs/Examples`) and these theorems refuse the wrong definitions in its `must-fail/`.
#![tactic(auto)]

mod term;
mod typed;

pub use term::{Definition, Program, Term};
pub use typed::Typed;
