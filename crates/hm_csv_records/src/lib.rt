//! The records of a file of comma-separated values (RFC 4180): reading and writing.
//!
//! Bytes are read as a byte-order mark, or none, and the records behind it (`reader`, `specs/Reads`): the first is the
//! header, and the others are as long as it is. A caller names columns that the header has to have: the first field
//! that is the name when it's cleaned (`header`). Bytes that aren't UTF-8 aren't read, and neither are those with a bad
//! record: one of another length, or a header that lacks a column, or whose first field begins with a second byte-order
//! mark. What is written (`writer`, `specs/Written`) is the mark, if there is to be one, and each record's text, with a
//! line feed behind it, one by one, so that records that stay are lent as they are. What the crate `csv` takes for a
//! record is its own to say. It knows no keys and no trees.
//!
//! Proved: `read_records` gives the records of a file of comma-separated values whose header has given columns, and
//! whether a byte-order mark stands in front, or tells exactly what is wrong: the first byte that isn't UTF-8, or the
//! first record that is bad (`specs/Reads`); each field of what is read is UTF-8. `columns` gives the places where the
//! columns stand. A `RecordsWriter` writes records one by one (`specs/Written`), and what it has written of records
//! that could have been read is read as them again (`proofs/Laws`).
#![tactic(auto)]

mod fault;
mod fields;
mod header;
mod reader;
mod records;
mod writer;

pub use fault::RecordsFault;
pub use fields::field;
pub use header::columns;
pub use reader::read_records;
pub use records::Records;
pub use writer::RecordsWriter;
