//! A run of made-up files in memory, and the numbers that it comes to.
//!
//! The files of `hm_generator` are put into a store in memory, and over it the steps of a synchronisation are taken: the
//! files are loaded, the plan is made of them (`hm_run_sync`), and its files are written. What is told of it is one line
//! with the numbers of contacts, of keys on both sides, and of conflicts. The store that a run is lent isn't touched.
//!
//! Proved: `run_generated` tells the numbers of the plan of the generated files, or what stops it, as it would stop a
//! synchronisation of these files (`specs/Generating`). It comes to one thing alone, which is a text (`proofs/Once`).
#![tactic(auto)]

mod line;
mod names;
mod running;
mod store;

pub use running::run_generated;
