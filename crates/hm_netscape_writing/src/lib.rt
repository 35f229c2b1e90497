//! Writing a Netscape bookmark file anew for a tree, straight from the old bytes into the new ones.
//!
//! The head and the tail of the file stay, and between them stand lines (`hm_netscape_lines`). What stood in a folder is
//! gone through once, an entry after the other. A link or folder stays where the tree has an item of its kind at its key and
//! its place: a link as it is or with another address, a folder as it is but for what stands in it. Where the item is of
//! the other kind, a new one stands in its place, and where there is none, nothing does. Separators stay. The new items
//! stand last. The first folder at the top that a browser shows as its bookmarks bar is written for the edge `bar` of the
//! tree, and all else at the top for `other`; where there was no such folder and something is to stand in it, a new one
//! stands first.
//!
//! Nothing is made of the file but its new bytes, and of a folder the lists of the trees that its items take. Folders that
//! go are skipped without a call for each in them, so calls nest no deeper than the tree.
//!
//! Proved: `written_anew` gives just what is written of a tree behind a file (`IsWrittenAnew` of `hm_netscape_files`), for
//! each member of the schema of bookmarks within the limits. `specs/Added` and `specs/Outermost` tell what each step puts
//! behind the bytes before it.
#![tactic(auto)]

mod files;
mod folders;
mod links;
mod outermost;
#[cfg(test)]
mod tests;

pub use files::written_anew;
