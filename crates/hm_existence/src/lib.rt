//! That something is there: a claim without a witness.
//!
//! This crate has one definition, `IsThere` (`specs/Existence`): it can't be that nothing has a property. The readers of
//! files are relations, and no second reader is written in the logic; so that bytes have an answer is said by it, and
//! told by cases which the logic doesn't decide.
//!
//! Proved: how such claims follow from one another (`proofs/Existence`), of numbers up to a bound and of the items of a
//! list too.
#![tactic(auto)]
