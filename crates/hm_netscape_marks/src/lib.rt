//! Files of Netscape bookmarks, the HTML in which browsers export bookmarks.
//!
//! ```text
//! <!DOCTYPE NETSCAPE-Bookmark-file-1>
//! <DL><p>
//!     <DT><H3 PERSONAL_TOOLBAR_FOLDER="true">Bookmarks bar</H3>
//!     <DL><p>
//!         <DT><A HREF="https://n.example/">News</A>
//!     </DL><p>
//!     <DT><A HREF="https://s.example/">Shop</A>
//! </DL>
//! ```
//!
//! What such a file is, and its tree, is told by `hm_netscape_files`: what stands in the bookmarks bar below `bar`, and all
//! else at the top below `other`. The key of a link or a folder is its title. What a file is read as, and why it is
//! refused, is `Files` there: symbols are numbered from 1 on, and the first that doesn't fit is told; 0 tells that the file
//! has no head. Such a file has no options.
//!
//! Where the tree stays, so do the bytes. Else the file is written anew, a line for each tag, within spaces by its depth.
//! Its head and its tail stay, byte for byte. In its outermost folder links and folders stay with their attributes, titles
//! and notes, and so do separators, each in its place; a link has another value of its first `HREF` where it has another
//! address, and a note loses the white space at its end. The bookmarks bar stays, even with nothing in it; where there was
//! none, a new one stands first if something is to stand in it.
//!
//! Before a file is read as a whole, to compare its tree with the new one, its links and folders are sought in that, one after
//! the other. The first that is certainly not there, or too few of them in a folder, tells that the file is to be written anew
//! (`differing`, `seeking`). Of items with one key in one folder nothing is told.
//!
//! Proved: `Netscape` is the format of files of Netscape bookmarks. What a file is read as, and otherwise the one reason
//! why it isn't, is told exactly; what is written of a tree is read as it; of what stood in the file all stays that
//! `NetscapeKeeps` tells, links and folders by their names and places, and the bookmarks bar in its own (`specs/Kept`); and
//! the bytes stay where nothing changes. Where a difference was found before, the file isn't read as the tree (`differs`). It
//! is lawful (`proofs/Laws`). What isn't kept is tried on small folders (`proofs/Examples`).
#![tactic(auto)]

mod differing;
mod format;
mod seeking;
mod writing;

pub use format::Netscape;
