//! What every program of Harmony begins with: the words behind its name, the formats and the text lenses that it hands in.
//!
//! Formats and text lenses are made where they are lent, in each program, since the gate takes no function that puts
//! something behind a trait and gives it out. What they are to mean, in their order, is said here once
//! (`specs/Handed`).
//!
//! Proved: that what is called is called as the contracts ask, and that a box holds the text lens that was made. That the
//! words are those behind the program's name is shown by the tests over real files.
#![tactic(auto)]

mod boxes;
mod words;

pub use boxes::boxed;
pub use words::words_of;
