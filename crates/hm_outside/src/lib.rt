//! The outside: stores of files and sinks for output.
//!
//! A store and a sink are traits, whose clauses say what a caller can rely on: what a load tells of the contents, what
//! a replace leaves, and that a failed call is in the list of failed calls. They say it of stores and sinks that tell
//! what they hold, as those in memory do; real files and the standard output tell nothing, and for them the clauses on
//! failed calls alone say something. Of real files it sees which have two names or were changed since they were loaded
//! (`seen`), follows links (`path`), and replaces a file or leaves it alone (`replace`). What the bytes mean isn't
//! known here.
//!
//! Proved: stores and sinks meet their traits: what a load tells, what a replace leaves, and that a failure is told
//! where the list of failed calls grew, and only there. `MemStore` and `MemSink` tell what they hold, and of them calls can
//! be made to fail, by their numbers: just these do, and leave what was said, and a replace within the room of its name never
//! runs out of memory (`specs/InMemory`). Of what
//! `FileStore` has seen of files it is decided exactly whether one was loaded, under another name, or in another state
//! (`specs/Seen`), and whether a reader gives just these bytes.
#![tactic(auto)]

mod failing;
mod file;
mod kind;
mod memory;
mod numbered;
mod output;
mod outside;
mod path;
mod replace;
mod room;
mod seen;

pub use file::FileStore;
pub use memory::{MemSink, MemStore};
pub use output::StdSink;
pub use outside::{Failure, Kind, Loaded, Put, Sink, Store, Stored};
