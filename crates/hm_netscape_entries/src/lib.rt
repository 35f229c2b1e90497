//! The entries of a Netscape bookmark file: how its links and folders are read, one after the other, and how new ones are
//! made.
//!
//! A file has of a link or a folder the bytes of its attributes, those of its title, and a note where there is one; of a
//! separator the bytes of its attributes (`hm_marks_tokens`). The key of either is the text of its title, with entities
//! read and cleaned, and the address of a link is that of its first `HREF` (`specs/Entries`). So they are a layout of
//! `hm_marks`, whose theorems say what is written anew of a folder. The folder that a browser shows as its bookmarks bar
//! has an attribute PERSONAL_TOOLBAR_FOLDER of the value `true` (`specs/Toolbars`). What stands in a folder is written by
//! lines, with notes without the white space at their end (`specs/Written`).
//!
//! Proved: `next_entry` tells what stands next in a folder, and where what is left begins (`specs/Next`); all that it lends
//! of a text is UTF-8. `text_of`, `address_in` and `is_toolbar` tell the text of a title, an address, and whether a folder
//! is the bookmarks bar. Links and folders are read as they are made, and with another address a link stays the same but
//! for the value of its first `HREF` (`entries_are_read`). What is read of a file may stand in one (`lists_may_stand`), and
//! what is written anew for a tree by lines is read as that tree, with notes as they were but for white space at their end
//! (`folders_are_read_again`).
#![tactic(auto)]

mod laws;
mod next;
#[cfg(test)]
mod tests;
mod texts;

pub use laws::{entries_are_read, folders_are_read_again, lists_may_stand};
pub use next::{Next, list_inside, next_entry};
pub use texts::{address_in, is_toolbar, text_of};
