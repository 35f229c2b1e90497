//! Running the main lens of a program: what it shows of a tree, and what it puts of a view.
//!
//! `get` gives what the lens of a program shows of a tree (`getting`), and `put` what it puts of a view, with the tree
//! from before or with none (`putting`). `put_changes` puts only where a view isn't the one that was shown before, and
//! a lens that `is_oblivious` needs no tree from before (`oblivious`). They are the relations of `hm_terms`, by the
//! lenses of `hm_eval_terms`, and a lens that fits its trees and views never fails on them. A term of more than 2^64 -
//! 1 levels would be told as want of memory, and none has so many.
//!
//! Proved: `get` and `get_owned`, which takes the tree over, give what the lens of a program shows of a tree, and `put`
//! and `put_owned`, which takes both trees over, what it puts, over the text lenses that they are lent, wherever the
//! lens shows or puts anything; `put_changes`, which takes the view that was shown of the tree from before over too,
//! puts the same wherever that view is put back as that tree; a lens that `is_oblivious` puts the same with no tree
//! from before (`specs/Oblivious`).
#![tactic(auto)]

mod getting;
mod oblivious;
mod putting;

pub use getting::{get, get_owned};
pub use oblivious::is_oblivious;
pub use putting::{put, put_changes, put_owned};
