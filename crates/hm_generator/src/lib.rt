//! Made-up address books: the six files of a run, for as many contacts as are asked for, to try a run or to measure it.
//!
//! The archive knows each contact with its number alone, the left file has rows of CSV, and the right file vCards. They
//! equal the archive but for what has changed since, which the contact's remainder by 20 says: another number on the
//! left (0), an EMAIL on the right (5), no row on the left (10), no row on the left and an EMAIL on the right (15), two
//! different numbers (19). It knows no files and no other format than these texts.
//!
//! Proved: `generate` gives, for each number of contacts, just the bytes of schema, lens files, archive, left and right
//! file that the definition says (`generated` of `specs/Generated`), where there is memory. That they are read, and what
//! comes of a run on them, is not proved here.
#![tactic(auto)]

mod contacts;
mod files;
mod texts;

pub use files::{Generated, generate};
