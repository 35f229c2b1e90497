//! Documents of JSON (RFC 8259) whose numbers are integers.
//!
//! A document is a text that the crate `serde_json` reads, nested at most 127 deep, in which no number is a float
//! (`specs/Documents`). Integers that don't fit 64 bits are floats, and so is `-0`. A lone surrogate in a string is no text.
//! Of members with one key the last one counts, and the members of what is read stand in the order of their keys. It knows
//! no trees.
//!
//! Proved: `read_document` gives exactly the value of the document that a text is. `write_document` writes the shortest
//! text of a value, and it is a document of this value. The value of a document is sound: its integers fit 64 bits, its
//! strings and keys are UTF-8, and the keys of its objects rise. The text of any sound value, nested at most 127 deep, is
//! UTF-8 and a document of it (`documents_are_read_again`). Sound members stay sound where a sound value is put among them,
//! and what is found among them is sound (`proofs/Members`).
#![tactic(auto)]

mod document;
mod laws;
#[cfg(test)]
mod tests;

pub use document::{read_document, write_document};
pub use laws::documents_are_read_again;
