//! The trees of address books, and their schema.
//!
//! An address book is a list of cards, each with a key. Its tree has below each key the list of the cards with it
//! (`hm_book_items`). A card has below some names sets of texts, as the telephone numbers of a person (`specs/Cards`).
//! Files of comma-separated values, of vCards (RFC 6350) and of calendars (RFC 5545) all have such trees: they differ
//! in the names that cards may have, and in which of them may have many texts.
//!
//! `book_schema` is the schema of these trees (`book`, of the nodes in `nodes`, some of which serve other schemas of lists
//! too), `card_tree` makes the tree of a card, and `texts_at` and `edges_at` read it (`card`). It knows no format.
//!
//! Proved: `book_schema` is the schema of address books whose cards may have given names, each with one text or with
//! many, and `card_tree` and `texts_at` make the tree of a card and read the texts below a name (`specs/Cards`). A card
//! has the texts that it was made with and is known from them, the tree of items that are cards is a book, the members
//! of the schema are the books (`specs/Books`), and no node of it has twins (`proofs/Laws`).
#![tactic(auto)]

mod book;
mod card;
mod nodes;

pub use book::book_schema;
pub use card::{card_tree, edges_at, texts_at};
pub use nodes::{empty_node, list_node, open_node, shape_of};
