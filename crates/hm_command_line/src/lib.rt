//! The words behind the program's name: which of them are flags, and what the others ask for.
//!
//! ```text
//! words   = *( "--quiet" / word ) [ "--" *word ]
//! request = "sync" 6name / "plan" 6name / "check" name / "view" 2name / "gen" number
//! ```
//!
//! In front of the first `--` stands `--quiet` once at the most, anywhere, and no other word that begins with `-`,
//! unless it is `-` alone. The first `--` only ends the flags: behind it each word is one, however it begins. So ask
//! POSIX.1-2017, XBD 12.2, guidelines 10 and 13; that a flag may stand behind names is a custom of GNU. What is left
//! of the words is the request. A number is decimal, from 1 to 50,000, and begins with no 0. `clap` reads the words
//! (`line`), and a table says what they ask for (`request`); the definitions (`specs/Words`, `specs/Requests`) know no
//! `clap`. No file is known here: any word may name one, also `-` and the empty word, and two names may be equal.
//!
//! Proved: `read_line` gives what all words say, which is whether `--quiet` is there and the others in their order, or
//! that they haven't the form. `read_request` gives the command that they ask for, with the names of its files, or that
//! they ask for nothing. Neither gives anything else, but for want of memory. What words of each kind mean is computed
//! from the definitions (`proofs/Cases`).
#![tactic(auto)]

mod line;
mod request;

pub use line::{Line, read_line};
pub use request::{Command, MOST_CONTACTS, Request, read_request};
