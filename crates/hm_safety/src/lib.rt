//! When the result of reconciling two replicas against their archive is safe.
//!
//! This crate has definitions alone, in `specs/`: what an archive and two replicas have at each path (`Views`), what
//! has changed and where the two sides clash (`Changes`), and when a result is safe (`Safety`). They follow Exploiting
//! Schemas in Data Synchronization (JCSS 2007). They don't say how a result is found.
//!
//! Proved: theorems on small trees (`proofs/Examples`), which refuse the wrong definitions in its `must-fail/`.
#![tactic(auto)]
