//! The text of terms of lenses: reading and writing.
//!
//! ```text
//! term     = part [ ";" term ]
//! part     = "id" / "const(" tree "," tree ")" / "hoist(" edge ")" / "plunge(" edge ")"
//!          / "xfork(" set "," set "," term "," term ")" / "map(" term ")"
//!          / "wmap(" edge "=" term *( "," edge "=" term ) ")" / "list(" term ")"
//!          / "copy(" edge "," edge ")" / "merge(" edge "," edge ")"
//!          / "ccond(" edge "," term "," term ")" / "acond(" edge "," edge "," term "," term ")"
//!          / "text(" word ")" / "call(" word ")" / "filter(" set "," tree ")" / "prune(" edge "," tree ")"
//!          / "focus(" edge "," tree ")" / "add(" edge "," tree ")" / "rename(" edge "," edge ")" / "(" term ")"
//! set      = "{" *edge "}"
//! edge     = word / name                         name: as `hm_tree_spelling::append_spelled` spells it
//! word     = 1*( "A" to "Z" / "a" to "z" / "0" to "9" / "_" / "-" / "." / "*" )
//! tree     = as `hm_tree_text` spells it; at most 1,000 edges lie one below another
//! ```
//!
//! Any number of spaces may stand between two tokens, and none inside a tree, in front of a term or behind it. A word
//! goes as far as it can, so two words in a set need a space between them. A name that stands twice in a set is there
//! once; the names of a `wmap` are all different. Parentheses around a term make no term of their own, and sequences
//! group to the right. `filter`, `prune`, `focus`, `add` and `rename` are read as the terms that they stand for
//! (`specs/Derived`). Terms are read in `reader` and the files beside it, and written in `writer`. It knows no lines.
//!
//! A text with more than 200 parentheses and braces open within one another, or with more than 1,999 semicolons, is
//! oversized and isn't looked at further (`limit`, `count`); what stands in spelled names doesn't count.
//!
//! Proved: `read_term` gives the term whose text some bytes are, or tells that they are the text of none, or that they
//! are over a limit; a text is that of one lens at the most (`proofs/Laws`). `is_long` tells exactly which terms have
//! more than 2,000 terms, and `append_term` writes the one text that `specs/Written` says of a lens. Where the lens is
//! that of some text, what is written is read as it (`written_reads`).
#![tactic(auto)]

mod argument;
mod count;
mod derived;
mod front;
mod keyword;
mod limit;
mod names;
mod plain;
mod reader;
mod writer;

pub use count::is_long;
pub use reader::{TermRead, read_term};
pub use writer::append_term;
