//! Kinds of text lenses, each of which shows texts of one class, meets the laws of `hm_text_lens`, and can stand in a
//! chain or in a box.
//!
//! Each kind has a file, and is one of two ways of going between texts, of which the laws are proved once
//! (`specs/Kinds`, `specs/KindLaws`): a normal form that is shown, as of `trim_ends` and `fold_case`, or texts that are
//! exchanged, as of `swap_date` and `swap_words`. `lenses` has those that lens files can name. It knows no trees.
//!
//! Proved: each kind meets the laws, and shows and puts exactly what is defined: `TrimEnds` shows a text without the
//! spaces at its ends (`specs/Trimmed`), `FoldCase` its full case folding, or `?` where that isn't Trimmed
//! (`specs/Folding`, `proofs/FoldTexts`), and both put the text from before where it shows what is put. `SwapDate`
//! exchanges `YYYYMMDD` and `YYYY-MM-DD` where the calendar has the day (`specs/Dates`), and `SwapWords` the two words
//! of each pair of a table (`specs/WordTables`); both put by the same exchange. `trim`, `date`, `email` and `yes_no`
//! are those that a lens file can name (`specs/TextLenses`).
#![tactic(auto)]

mod fold_case;
mod lenses;
mod swap_date;
mod swap_words;
mod trim_ends;

pub use fold_case::FoldCase;
pub use lenses::{date, email, trim, yes_no};
pub use swap_date::SwapDate;
pub use swap_words::SwapWords;
pub use trim_ends::TrimEnds;
