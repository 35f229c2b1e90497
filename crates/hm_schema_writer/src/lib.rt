//! Writes nodes as the lines that `hm_schema_lines` reads.
//!
//! A node is its own line, and behind it the lines of its edges, of its other names and of its shapes; one space stands
//! between two tokens, names of edges stand between quotes, and a count only where it isn't `0..0`. Such lines are read
//! as what they were written from, whatever lines of a file's own stand before and behind them. It stands apart because
//! most of what reads such lines writes none: lens files and schema files are written with it, and tests write nodes.
//!
//! Proved: `append_nodes` writes nodes in one form (`specs/WrittenNodes`); where they are those that some lines
//! describe, the lines that are written are sound, are read as what they were written from, and describe the nodes
//! again; a text of lines, none of which has a control character, breaks into these (`proofs/Laws`).
#![tactic(auto)]

mod writer;

pub use writer::append_nodes;
