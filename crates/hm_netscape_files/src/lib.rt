//! Reading a Netscape bookmark file, the HTML in which browsers export bookmarks.
//!
//! The format has no standard. A file has a head, the list of the outermost folder, and a tail. Behind a byte-order mark
//! and white space, where there are any, the head begins with `<!DOCTYPE NETSCAPE-Bookmark-file-1>`, in any case, and it
//! goes up to the first `<DL` behind which `>` or white space follows (`specs/Heads`). No heading stands in it. The list is
//! of the grammar of `hm_marks_tokens`; behind it stands white space, and among that one `<p>` or none (`specs/Tails`).
//!
//! A file's tree has the edge `bar`, to what stands in the first folder at the top that a browser shows as its bookmarks
//! bar, and `other`, to all else at the top. A file is judged as a whole first, a symbol after the other. Then it is told
//! how many folders nest: more than a tree of bookmarks may have aren't read, so reading calls itself no deeper than that.
//! Bytes are lent up to the names of the tree.
//!
//! Proved: `read_bookmarks` gives the tree of a file, or the one fault that it has (`specs/Files`): where bytes stop being
//! UTF-8, the number of the first symbol that doesn't fit, how many folders nest where too many do, or else how deep the
//! tree is where that is too deep. Whatever the bytes are, they have one answer (`files_are_known`, `files_are_told`), and a
//! tree is a member of the schema of bookmarks (`files_have_members`).
//!
//! What is written of a tree behind a file from before is told here (`specs/Anew`, `specs/Writing`), and made above: the head and
//! the tail stay, what stands in the bookmarks bar and what stands beside it is written anew as any folder, and the bar stays
//! in its place. It shows the tree (`folders_show_their_tree`) and is read as the tree (`files_are_read_again`). Behind each
//! file there is one such text for each member of the schema (`files_are_written`, `files_are_written_once`).
#![tactic(auto)]

mod heads;
mod laws;
mod nesting;
mod nodes;
mod opening;
mod reading;
mod tails;
#[cfg(test)]
mod tests;

pub use heads::head_len;
pub use laws::{
    files_are_known, files_are_read_again, files_are_told, files_are_written,
    files_are_written_once, files_have_members, folders_show_their_tree,
};
pub use nesting::{folders_within, nesting_in};
pub use nodes::{Bookmarks, bookmarks_in};
pub use opening::opened;
pub use reading::read_bookmarks;
pub use tails::is_tail;
