//! The records of a table as the cards of an address book.
//!
//! Some columns of a table show texts: a field of such a column shows the text that it is when it's cleaned, or a set
//! of texts, each of them a piece of the field (`hm_csv_fields`). The card of a record has these texts below the
//! columns' names (`card`, `specs/Records`). Where a record is to show another card, each field whose texts stay is
//! left alone, and so is each field that isn't in such a column; the others are made anew (`rewriting`, `field`,
//! `specs/Fields`). It knows no options and no files.
//!
//! Proved: `card_of` gives the card that a record shows through columns of one text or of many, and `rewrite` the
//! record that is to show another card: fields that aren't shown, and those whose texts stay, are left alone
//! (`specs/Records`). What is made shows the card, and a record which is to show its own card stays (`proofs/Laws`).
//! Said of the two records alone (`specs/Kept`): fields that are hidden or show the same texts are equal, and in
//! another field of many texts the pieces that stay are there, in their order.
#![tactic(auto)]

mod card;
mod column;
mod field;
mod rewriting;
mod staying;

pub use card::card_of;
pub use column::Column;
pub use rewriting::{Table, blank, rewrite};
