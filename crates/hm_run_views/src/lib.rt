//! The commands that only read: the schema of the views of a lens file, and the view of a file.
//!
//! `check_lens` opens a lens file as the side of a replica and tells the schema of its views; `view_file` opens a file on
//! that side and tells what is seen of it. Both go by the steps that a synchronisation takes for a lens file and a replica
//! (`hm_run_sides`), so they refuse what it would refuse, but they compare the view with no schema.
//!
//! Proved: `check_lens` and `view_file` give the text of the schema and that of the view, or tell the first stop
//! (`specs/Viewing`). Each comes to one thing alone, which is a text (`proofs/Once`).
#![tactic(auto)]

mod views;

pub use views::{check_lens, view_file};
