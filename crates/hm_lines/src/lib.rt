//! Content lines, which files of cards (RFC 6350) and of calendars (RFC 5545) are made of.
//!
//! ```text
//! file  = *( line end )              ; the last line may lack its end
//! end   = [ CR ] LF
//! fold  = [ CR ] LF ( SPACE / TAB )  ; may stand anywhere, and is taken out before lines are cut
//! line  = [ word "." ] name [ ";" parameters ] ":" value
//! word  = 1*( letter / digit / "-" ) ; of ASCII
//! name  = word
//! ```
//!
//! The `:` is the first one outside of double quotes. In a value of the type text `\\`, `\,` and `\;` stand for `\`,
//! `,` and `;`, `\n` and `\N` for a line feed, and another `\` for itself; what a value shows is that, cleaned.
//!
//! Bytes are unfolded as a whole (`without_folds`), and lines stand in what is unfolded (`first_line`; `unfolding`).
//! Lines are written with CRLF behind each, and those of more than 75 octets are folded between characters (`folding`).
//! Values are escaped in `values`, and the parts of a content line are found in `content`. It knows no properties and
//! no cards.
//!
//! Proved: `unfold` gives the lines of a file in the form of content lines (RFC 6350 section 3.2, RFC 5545 section
//! 3.1), unfolded and cut; `without_folds` unfolds bytes as a whole, and lends those that have no fold, and
//! `first_line` finds where the first line of bytes ends (`specs/Unfolding`); `fold` writes lines, each piece as long
//! as it may be and ending at a character (`specs/Folding`), and what it writes is unfolded to the same lines, where
//! none has a line feed or begins with a space or a tab; `escape` and `unescape` write and read the text of a value
//! (`specs/Values`), and what is escaped of a clean name is read as that name; `parts` finds the name and the value of
//! a content line, or none exactly where it isn't one (`specs/Content`).
#![tactic(auto)]

mod content;
mod folding;
mod unfolding;
mod values;

pub use content::{LineParts, parts};
pub use folding::{append_folded, fold};
pub use unfolding::{FirstLine, first_line, unfold, without_folds};
pub use values::{escape, unescape};
