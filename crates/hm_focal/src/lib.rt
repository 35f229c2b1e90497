//! Reads the text of lens files.
//!
//! ```text
//! file     = *skipped header *skipped format *( skipped / a line of a node ) *( skipped / lens ) main *skipped
//! header   = "harmony" gap "lens" gap "1"
//! format   = "format" gap word *( gap word "=" edgename *( "," edgename ) )
//! lens     = "lens" gap word gap word gap word gap "=" gap term            its name, its source node and its view node
//! main     = "main" gap "=" gap term
//! ```
//!
//! Each stands on a line of its own, as `hm_schema_lines` says of the others, whose gaps, words and names of edges
//! these are; a term is as `hm_focal_terms` says. A file is read line by line, each as a line of a node and as one of
//! the file's own; a line out of its place is neither, and declares nothing. The lines are judged one after another, up
//! to the first bad one; where none is bad and the main line is there, they describe the program. What is read of a
//! file is written by `hm_focal_writer`.
//!
//! Proved: `read_lens` gives the program of a lens file or its first bad line, as `specs/LensFiles` and
//! `specs/BadLines` define them; the program is well formed. A file comes to one program or one line, never to both
//! (`proofs/Laws`).
#![tactic(auto)]

mod calls;
mod fault;
mod format;
mod front;
mod head;
mod judge;
mod lenses;
mod lines;
mod own;
mod program;
mod read;

pub use fault::LensFault;
pub use read::read_lens;
