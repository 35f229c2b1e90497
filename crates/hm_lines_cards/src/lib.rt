//! The content lines of an item as a card of an address book.
//!
//! An item of a file of vCards (RFC 6350) or of a calendar (RFC 5545) has content lines (`hm_lines`), and some
//! properties are shown: the value of a line of such a property shows the text that it stands for, if that isn't of
//! spaces alone. The card of the item has these texts below the names of the properties (`card`, `line`,
//! `specs/Lines`), and a line that is too many is found (`second`). The case of a property's name, its group and its
//! parameters don't count. Which lines count the caller says, who knows the components that stand inside of an item:
//! those of an item's own properties come with their parts. An item's key is what its lines show below one more name.
//!
//! Where an item is to show another card, the lines of a property of many texts that aren't in the card go; the line of
//! a property of one text gets the new value behind its `:`, or goes; and what no line shows gets new lines behind all
//! others (`rewriting`, `writing`, `specs/Rewriting`). Every other line stays as it is. It knows no items and no files.
//!
//! Proved: `card_of` gives the card that the content lines of an item show below the names of properties (RFC 6350
//! section 3.3, RFC 5545 section 3.1), `second_of` the first line that shows a second text of a property which may have
//! one alone, and `rewrite` the lines for another card, with those that stay as they are lent. What is rewritten shows
//! the card, and an item which is to show its own card stays. Each line of no property, and each whose text stays, is
//! there byte for byte and in its order, and a line with another text begins with its old bytes up to `:`
//! (`specs/Kept`). What is rewritten are content lines which can be folded and read again (`proofs/Laws`).
#![tactic(auto)]

mod card;
mod line;
mod rewriting;
mod second;
mod writing;

pub use card::{card_of, key_of};
pub use line::{Line, NewLine, is_named};
pub use rewriting::rewrite;
pub use second::{is_second, second_of};
