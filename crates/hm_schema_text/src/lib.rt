//! The text of schema files: reading and writing.
//!
//! ```text
//! file     = *skipped header *skipped root *( skipped / a line of a node )
//! header   = "harmony" gap "schema" gap "1"
//! root     = "root" gap word
//! ```
//!
//! Each stands on a line of its own, as `hm_schema_lines` says of the others. So the first two lines that aren't
//! skipped are this file's own (`head`), and all behind them are of nodes. A file is read as entries, which are judged
//! one after another, up to the first bad one (`judge`); where none is bad and the head is there, the entries describe
//! the schema (`read`).
//!
//! ```text
//! written  = "harmony schema 1" LF "root N" number LF *( a line of a node, LF )
//! ```
//!
//! A schema is written in this one form (`writer`). Its nodes are called `N0`, `N1` and so on, in their order, and each
//! has its lines as `hm_schema_writer` writes them; none is called `Empty`.
//!
//! Proved: `read_schema` gives the schema of a file or its first bad line, as `specs/SchemaFiles` and `specs/BadLines`
//! define them; a file is of at most one schema, has at most one first bad line, and none where it is of a schema
//! (`proofs/Laws`). `write_schema` writes a schema as `specs/Writing` defines it, which is a file of this schema where
//! it has no twins, and no more nodes and shapes than a file may declare.
#![tactic(auto)]

mod fault;
mod head;
mod held;
mod judge;
mod read;
mod writer;

pub use fault::SchemaFault;
pub use read::read_schema;
pub use writer::write_schema;
