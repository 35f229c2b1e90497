//! Files of components as address books: what vCards (RFC 6350) and calendars (RFC 5545) have in common.
//!
//! A vCard (RFC 6350, section 6.1) and an event of a calendar (RFC 5545, section 3.6.1) are components: lines between
//! BEGIN and END, of which those of the component's own properties show a card (`hm_lines_cards`), and the text of one
//! of them is its key. A file is a list of pieces: components, and between them lines of none (`specs/Components`).
//! `items_of` gives a file's components as items, or tells the first that has no key (`specs/Reading`).
//!
//! Which files there are a form says (`specs/Forms`). What its files are read as, and otherwise the first of the
//! reasons why they aren't, is `specs/Files`: a file is unfolded, and has to be UTF-8 then; its lines, but for the
//! empty ones, have to be those of a layout that its form allows, and each component has to have a key. What is written
//! of a tree, and what stays, is `specs/Writing`: components survive by their keys and places, each with the lines that
//! are to show its card; the others go, and new ones stand behind all (`specs/Rewriting`). Every other line stays. The
//! pieces of a file are gone over once (`rewrite`); each line is folded when it is made, and compared with the one from
//! before (`specs/WrittenLines`), so that a file whose lines stay is known without a second pass.
//!
//! A crate of a form gives the layout of lines, or the line with which they stop to have one (`specs/Stops`), by an
//! object that meets `Grammar`. Where a form meets its laws (`specs/FormLaws`) its files are a lawful format. Which
//! forms there are it doesn't know. A layout is let go before the tree of its items is made.
//!
//! Proved: each object of `Grammar` meets the laws of a form, and tells exactly at which line some lines stop to be
//! those of a file. `items_of` gives the components of a file as its items, or tells the first that has no key, and
//! `rewrite` gives the lines of a file's components that are to show another tree, folded, or tells that they are the
//! lines from before: what is rewritten shows the tree, every other line stays, and components which show the tree
//! already stay. `read_book` and `write_book` read and write a file of any form as its format means it, and `schema_of`
//! judges its options. That format is lawful (`proofs/Laws`): all bytes are read as one tree or refused for one fault,
//! the number of the first line that doesn't fit among them; what is written is read as the tree, every line that isn't
//! shown stays, and bytes stay where nothing changes. What stays is said of the two files alone (`specs/Kept`).
#![tactic(auto)]

mod book;
mod component;
mod fault;
mod grammar;
mod items;
mod layout_fault;
mod opening;
mod options;
mod reading;
mod rewriting;
mod room;
mod writer;
mod writing;

pub use component::{Component, Layout, Piece, Template};
pub use grammar::Grammar;
pub use layout_fault::LayoutFault;
pub use options::schema_of;
pub use reading::read_book;
pub use room::room_for;
pub use writing::write_book;
