//! Lenses between texts: a trait, and the laws that each of its objects meets.
//!
//! A text lens goes between the texts of one class and those of another. Its meaning is two functions and what it hides
//! (`specs/Meanings`), and the laws are those of lenses between trees (TOPLAS 2007, section 3): what is shown of a text
//! and put back, with that text from before, gives that text, and a text that is put is shown again. Texts are names
//! that are UTF-8, and nothing is asked of it at other bytes. Two text lenses in a chain are one (`chain`), and of text
//! lenses in a list each is found by its name (`named`). It knows none of the lenses that stand in a chain or a list.
//!
//! Proved: each object of the trait meets the laws (`specs/Meanings`). A `Chain` of two text lenses, of which the
//! second reads the texts that the first shows, meets them by the laws of its two parts alone. `first_named` gives the
//! first text lens of a name in a list, or none where none has it. What follows from the laws (`proofs/Laws`), and
//! meanings that meet them or don't (`proofs/Examples`), refuse the wrong laws in its `must-fail/`.
#![tactic(auto)]

mod chain;
mod named;
mod text_lens;

pub use chain::Chain;
pub use named::first_named;
pub use text_lens::TextLens;
