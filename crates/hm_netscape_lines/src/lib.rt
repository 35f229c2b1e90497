//! The lines of a Netscape bookmark file, put behind bytes.
//!
//! A file is written straight into its bytes, a line after the other, and nothing stands between (`hm_marks_tokens` says
//! what a line is). A link from before stays as it is (`add_link`), or has another address (`add_addressed`); a new one has
//! a title and an address, which are escaped (`add_new_link`). A folder is a heading, which is one from before or a new one
//! (`add_heading`, `add_new_heading`), the lines of what stands in it, and its end (`add_end`). A separator has its
//! attributes (`add_separator`). Each stands within so many folders, and has four spaces before it for each of them. The
//! white space at the end of a note is lost.
//!
//! Proved: just these lines stand behind the bytes from before (`specs/Behind`). The lines of what stands in a folder and
//! those of more are the lines of both, one behind the other, and a heading, the lines of what stands in a folder and its
//! end are those of the folder (`proofs/Joined`).
#![tactic(auto)]

mod anew;
mod entry;
mod lines;
#[cfg(test)]
mod tests;

pub use anew::{add_addressed, add_new_heading, add_new_link};
pub use entry::Entry;
pub use lines::{add_end, add_heading, add_link, add_separator};
