//! Formats: how files of a kind are read as trees and written anew.
//!
//! A format is a boxed object (`Format`) whose meaning is relations on whole files (`specs/Formats`): which options it
//! takes and the schema of its trees under these, what bytes are read as, and which bytes are written of a tree behind
//! those from before. Its laws are those of a lens between files and trees (TOPLAS 2007, section 3): what is written is
//! read as the tree, and where the tree is the one that was read the bytes stay. Options are judged by a table of the
//! keys that a format has (`keys`, `specs/Options`). A format has no state: what it has read of a file it doesn't know
//! when the file is written. It knows no lenses.
//!
//! `Plain` is the format of files that are the text of a tree (`hm_tree_text`), which hide nothing.
//!
//! Proved: each object of the trait meets its laws (`specs/Formats`): all bytes are read as one tree or refused for one
//! fault, what is read is a member of the schema of the options, and of each tree that may be written there is one
//! text, which is read as the tree, keeps what trees don't show, and is the bytes from before where these are read as
//! the tree. `first_bad_key` gives the first key for which options aren't those of a format with a table of keys, or
//! none where they are (`specs/Options`). Of `Plain` the first byte that isn't UTF-8, the fault of `read_tree`, or the
//! first path whose names aren't permitted is told exactly (`specs/Plain`).
#![tactic(auto)]

mod fault;
mod format;
mod keys;
mod plain;
mod sound;

pub use fault::FormatFault;
pub use format::Format;
pub use keys::{Key, first_bad_key, values_of};
pub use plain::Plain;
pub use sound::values_are_texts;
