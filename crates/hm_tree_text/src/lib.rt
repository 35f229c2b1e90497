//! The text of trees and of archives: reading and writing.
//!
//! ```text
//! file     = tree LF
//! archive  = (nothing) / place LF
//! tree     = "{" "}" / full
//! full     = "{" edge *( "," edge ) "}"
//! edge     = name [ ":" full ]
//! ```
//!
//! In an archive `place` is a tree or `!`, and what stands behind `:` is a full tree, whose edges are of this kind
//! again, or `!`. A name is UTF-8 text between quotes, spelled as `hm_tree_spelling::append_spelled` does. The names
//! under one node stand in ascending order of their bytes, each once. So each value has one text; one is read where at
//! most 1,000 edges lie one below another. It knows no files.
//!
//! Proved: `read_tree` and `read_archive` give the value that the bytes are the text of, to a depth of 1,000, or tell
//! exactly what is wrong: too many open braces, or the first byte that no text can have there. `write_tree` and
//! `write_archive` give the text of each value, which is UTF-8, and each value has one text. All bytes are read or
//! refused (`proofs/SomeReading`).
#![tactic(auto)]

mod built;
mod character;
mod fault;
mod name_fault;
mod pending;
mod place;
mod reader;
mod writer;

pub use fault::TextFault;
pub use reader::{first_tree, read_archive, read_tree};
pub use writer::{spell_tree, write_archive, write_tree};
