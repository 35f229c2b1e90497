//! What a request comes to, in one form for every command, and what carrying it out leaves.
//!
//! A request comes to an effect: the files that are to be written, and then the status and the text that is put out. Which
//! effect that is, is said by a relation on the bytes of its files, one for each command. The rest is the same for all
//! of them: the files are loaded, the effect is found, its files are written, and its text is put out
//! (`specs/Effects`). So what a run leaves, where it is cut off, and what stops it is said and proved once.
//!
//! Proved: these steps keep the one contract of a run's work, `Acts`, whatever the command; a request has one effect at
//! the most where its command finds one at the most; and a command that writes nothing leaves the store as it was,
//! whatever it answers (`proofs/Acting`).
#![tactic(auto)]

mod effect;

pub use effect::Effect;
