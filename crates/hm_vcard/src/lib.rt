//! Files of vCards as address books (RFC 6350, vCard 4.0).
//!
//! ```text
//! file = *card
//! card = "BEGIN:VCARD" "VERSION:4.0" *property "END:VCARD" ; each a line of its own, as in hm_lines
//! ```
//!
//! Names of properties have no case, and neither has what begins and ends a card. A property is any content line of
//! another name than BEGIN, VERSION and END; empty lines may stand anywhere. A card's key is the first text of its FN
//! lines that isn't of spaces alone. Options name the properties that are shown: BDAY, of which a card has one text,
//! and EMAIL, NOTE, ROLE, TEL and TITLE, of which it may have many (`specs/Cards`). What such files are read as, and
//! what is written of a tree, is what `hm_lines_files` says of a form of files. Cards are found one behind another
//! (`opening`, `property`); keys and trees aren't known here.
//!
//! Proved: files of vCards are a form of files of components (`hm_lines_files`; `specs/Cards`, `proofs/CardForm`), and
//! `VCard` is its format.
#![tactic(auto)]

mod card;
mod format;
mod grammar;
mod opening;
mod property;

pub use format::VCard;
