//! What two views of one thing differ in: the topmost paths that come and go.
//!
//! A change is a path that the new one of two views has and the old one lacks, or the other way round, above which both
//! have the same: all that stands below it comes or goes with it. The changes of two views are listed in the order of
//! paths, in one walk over both trees (`walk`), which takes the edges of two nodes name by name (`taken`). An entry is a
//! child of the root; changes are counted, and entries apart (`numbers`). It knows no archive and no texts.
//!
//! Proved: `changes_of` lists each topmost path that comes or goes, says which, and lists nothing else, in the order of
//! paths (`specs/Changes`). `take_next` takes the least name of two lists of edges off both (`specs/Taken`). `number_of`,
//! `entries_of` and `entries_changed` count what is listed (`specs/Numbers`).
#![tactic(auto)]

mod change;
mod numbers;
mod taken;
mod walk;

pub use change::{Change, Turn};
pub use numbers::{entries_changed, entries_of, number_of};
pub use taken::{Taken, take_next};
pub use walk::changes_of;
