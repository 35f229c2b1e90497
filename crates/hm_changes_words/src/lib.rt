//! The words behind the name of `harmony-changes`: a number or none, and the names of six files.
//!
//! ```text
//! words  = *( most / name ) [ "--" *name ]
//! most   = "--most" number / "--most=number"
//! number = 1*DIGIT
//! ```
//!
//! In front of the first `--` stands `--most` once at the most, anywhere, and no other word that begins with `-`,
//! unless it is `-` alone. Its number is the next word, or stands behind `=` in the same one: decimal digits alone, of
//! which the first may be 0, and less than 2^64. The first `--` only ends the options: behind it each word is a name,
//! however it begins. So ask POSIX.1-2017, XBD 12.2, guidelines 7, 10 and 13; that an option may stand behind names,
//! and its number behind `=`, are customs of GNU. There are six names: of the schema, lens file A, lens file B, the
//! archive, replica A and replica B. `clap` reads the words, and what they ask for is defined by its model of a parse
//! (`specs/Asked`). No file is known here: any word may name one, also `-` and the empty word, and two names may be
//! equal; nor is what the number counts.
//!
//! Proved: `read_asked` gives the number and the six names that all words say, or that they ask for nothing. It gives
//! nothing else, but for want of memory. What words of each kind mean is computed from the definition
//! (`proofs/Cases`).
#![tactic(auto)]

mod asked;

pub use asked::{Asked, read_asked};
