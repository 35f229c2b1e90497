//! The tokens of a Netscape bookmark file, the HTML in which browsers export bookmarks, and what they mean.
//!
//! The Netscape Bookmark File Format has no standard. What is accepted here, from the outermost `<DL` on:
//!
//! ```text
//! file       = *token
//! token      = tag / text
//! tag        = "<" up to the next ">" outside of double quotes
//! text       = 1*( any byte but "<" )   ; up to the next tag, or to the end
//! attributes = *attribute [ white ]     ; of A, H3 and HR, behind the name of the tag
//! attribute  = white name [ "=" DQUOTE *( any byte but DQUOTE ) DQUOTE / "=" run ]
//! name       = 1*( letter / digit / "_" / "-" )   ; of ASCII
//! run        = *( any byte but white, DQUOTE and ">" )
//! white      = 1*( tab / LF / FF / CR / SPACE )   ; as in HTML
//!
//! folder     = <DL> *entry </DL>
//! entry      = <DT> <A attributes> [ text ] </A> [ <DD> [ text ] ]
//!            / <DT> <H3 attributes> [ text ] </H3> [ <DD> [ text ] ] folder
//!            / <HR attributes>
//! ```
//!
//! A tag that doesn't end is no token. The names of tags and attributes are without case. A link has an `HREF`; the first
//! one is its address. Texts of white space alone and `<p>` are skipped outside of A and H3. In titles and addresses `&amp;`,
//! `&lt;`, `&gt;`, `&quot;` and `&#N;` stand for characters, as in HTML (WHATWG HTML, section 13.1.4), where `N` is of one
//! to seven digits and the number of a character, whichever it is. Each other `&` stands for itself.
//!
//! Bytes are lent and not copied, but for what `escape` and `unescape` make, which answer `Memory` where there is none. It
//! knows no trees, and nothing of what stands before the outermost folder or behind it.
//!
//! Proved: `next_token` gives exactly the token that bytes begin with, and `next_symbol` what the first one means that
//! isn't skipped (`specs/Tokens`, `specs/Symbols`); `next_attribute` gives exactly the first attribute of a tag,
//! `are_attributes` tells whether bytes are attributes, and `address` finds the first address (`specs/Attributes`).
//! `unescape` reads entities, and `escape` writes bytes as they are read again; both keep UTF-8 (`specs/Entities`).
//! `add_readdressed` writes attributes with another address, and all else byte for byte. `step` tells what may stand where
//! in a folder, and `skip_folder` finds the end of one, or the number of the first symbol that doesn't fit
//! (`specs/Reading`); no other answer would do (`folders_are_known`), and the folders are exactly those of the grammar
//! (`specs/Grammar`, `folders_are_of_the_grammar`). A file that is written line by line is read as the symbols of its
//! lines, but for white space at the end of notes (`specs/Lines`, `lines_are_read`). Some small cases are computed from the
//! definitions (`proofs/Cases`).
#![tactic(auto)]

mod attributes;
mod bytes;
mod entities;
mod laws;
mod readdressing;
mod reading;
mod symbol;
#[cfg(test)]
mod tests;
mod token;

pub use attributes::{Attribute, Value, address, are_attributes, next_attribute};
pub use entities::{add_escaped, escape, is_literal, unescape};
pub use laws::{
    addresses_are_replaced, attributes_are_found, attributes_stand_in_tags, folders_are_known,
    folders_are_of_the_grammar, lines_are_read, symbols_are_known,
};
pub use readdressing::add_readdressed;
pub use reading::{Place, State, skip_folder, step};
pub use symbol::{Symbol, next_symbol, symbol_of};
pub use token::{Token, next_token};
