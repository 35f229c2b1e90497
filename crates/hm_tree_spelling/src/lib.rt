//! The spelling of names and of paths.
//!
//! ```text
//! name     = DQUOTE *( plain / "\" DQUOTE / "\\" / control ) DQUOTE
//! control  = "\x" digit digit                    a control character of ASCII, by its number
//! digit    = "0" to "9" / "a" to "f"
//! plain    = whatever is neither a quote, a backslash nor a control character of ASCII
//! path     = "/" / 1*( "/" name )
//! ```
//!
//! All texts in which names stand have this spelling alike. What is written can be read in one way only, whatever
//! follows it. A spelling is text, on one line.
//!
//! Proved: `spell_name` and `unspell_name` give and read the one spelling of a name, and `append_path` gives that of a
//! path; a name has one spelling, no name's spelling begins another's (`spelled_one`, `specs/SpellingLaws`), and what
//! is spelled is text (`spelled_utf8`).
#![tactic(auto)]

mod plain;
mod spelling;
mod unspelling;

pub use spelling::{append_path, append_spelled, spell_byte, spell_name};
pub use unspelling::unspell_name;
