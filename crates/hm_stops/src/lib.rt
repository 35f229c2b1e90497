//! Reconciling again where writing an outcome stopped comes to the same outcome. There is no code here.
//!
//! Of an outcome the left side is written first, then the right one, and the archive last. What is left where this stops,
//! and which conflicts remain over it, is defined in `specs/Stopped`.
//!
//! Proved, wherever it stops: the outcome over what is left is the outcome that was being written (`proofs/Again`), and
//! its conflicts stand at the same paths, each for the same reason while the archive is the old one, and as an earlier
//! one once it is new (`proofs/Reasons`). Where the archive is written before a side, what was to be carried to that side
//! is undone: examples on small trees (`proofs/Examples`). The theorems refuse the wrong definitions in its `must-fail/`.
#![tactic(auto)]
