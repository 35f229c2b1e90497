//! Files of comma-separated values as address books (RFC 4180).
//!
//! ```text
//! Name,Phone,Note
//! Ann Lee,+1 555 0101|+1 555 0102,met in Oslo
//! ```
//!
//! The first record is the header; each of the others is a card (`hm_book_cards`). Options name the column of a card's
//! key, columns that show a text, and columns that show many, which `|` divides (`specs/Options`). What a file is read
//! as, and why it is refused, is `specs/Files`: it has to be UTF-8, each record as long as the header, and each key not
//! of spaces alone. What is written of a tree is `specs/Writing`: cards survive by their keys and places, fields that
//! aren't shown stay, and so do those whose texts don't change. A file is opened by its options' columns (`opening`,
//! `options`), its records are gathered as items (`reading`), and a tree is written by the plan of `hm_book_items` in
//! one pass over the records (`writing`).
//!
//! Proved: `Csv` is the format of files of comma-separated values as address books: what a file is read as, and
//! otherwise the first of the reasons why it isn't, is told exactly (`specs/Files`); what is written of a tree is read
//! as it, records survive by their keys and places with the mark, the header and all fields that aren't shown or don't
//! change (`specs/Kept`), and the bytes stay where nothing changes (`specs/Writing`). It is lawful (`proofs/Laws`).
#![tactic(auto)]

mod format;
mod opening;
mod options;
mod reading;
mod writing;

pub use format::Csv;
