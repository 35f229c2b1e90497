//! Facts on what the standard library has words for: truth values, orderings, options, results, lists and bytes.
//!
//! This crate has theorems alone, each of which several crates cite.
//!
//! Proved: what its lemmas say, such as that where two lists are equal, the first items without a property stand at one
//! place (`first_break`, `proofs/Lists`).
#![tactic(auto)]
