//! What the words of a run ask for, how a run ends, and what it says then.
//!
//! The words are told apart once, into a request (`meaning`): a command and the names of its files, each in a slot
//! (`slots`), by which the rest of a run goes. A file that is written has the name of no other (`pairs`). A run ends
//! with what its work came to, an output or what stopped it, and with how that was put out (`ending`); the line and the
//! status of an ending are functions of these two (`lines`, `specs/Lines`). It opens no files and knows no trees.
//!
//! Proved: `meaning_of` gives the request that the words mean, or that they have no meaning, or the first two of its
//! files that have one name and may not, which `with_names_apart` tells of any request. `named` gives the files of a request in the order of their slots, `line_of`
//! the line of each stop, and `status_of` the status of each ending.
#![tactic(auto)]

mod ending;
mod lines;
mod meaning;
mod pairs;
mod slots;

pub use ending::{Ending, Output};
pub use lines::{line_of, status_of};
pub use meaning::{meaning_of, with_names_apart};
pub use slots::named;
