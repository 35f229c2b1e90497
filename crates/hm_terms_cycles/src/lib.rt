//! Which definition of a program is the first one in a bad cycle.
//!
//! A definition is in a bad cycle where it reaches itself with a call inside a sequence on the way, or with none inside
//! a lens on children or items (`hm_terms/specs/Calls`). The body of each definition is walked once for its calls
//! (`callees`), and then from each definition all ways are followed that differ in where they lead and in what stands
//! on them (`ways`).
//!
//! Proved: `first_in_bad_cycle` gives the first definition of a program that is in a bad cycle, or none where there is
//! none.
#![tactic(auto)]

mod call;
mod call_set;
mod callees;
mod first;
mod places;
mod ways;

pub use first::first_in_bad_cycle;
pub use places::add_name;
