//! Bookmark files of JSON, as Chrome and Chromium keep them.
//!
//! ```text
//! {"checksum":"..","roots":{"bookmark_bar":{"children":[..],"name":"Bookmarks bar","type":"folder"},"other":{..}}}
//! ```
//!
//! The file is JSON (RFC 8259) as `hm_json_documents` reads it. At its root, the object `roots` has the two folders
//! `bookmark_bar` and `other`, whose nodes are those of `hm_json_nodes` (`specs/Roots`). Its tree has what stands in the
//! two below `bar` and `other`, as `hm_marks_schema` tells it. What a file is read as, and why it is refused, is
//! `specs/Files`: nodes are numbered over the bar and then over the others, and the first that doesn't fit is told; 0
//! tells that the file has no such roots. Such a file has no options.
//!
//! Where the tree stays, so do the bytes. Else the file is written anew (`specs/Writing`): compact, the members of each
//! object by their keys, with all as it was but for the children of folders, and for the address of a link that has
//! another one. Where a browser keeps a checksum in its file, it is carried as it was. The file from before is parsed
//! once: its document is asked for the first difference from the tree, read as a tree only where that finds none, and
//! written over.
//!
//! Proved: `Chrome` is the format of bookmark files of JSON: what a file is read as, and otherwise the one reason why it
//! isn't, is told exactly (`specs/Files`); what is written of a tree is read as it; of what stood in the file all stays
//! that `JsonKeeps` tells, links and folders by their names and places (`specs/Writing`), and the bytes stay where nothing
//! changes. It is lawful (`proofs/Laws`).
#![tactic(auto)]

mod format;
mod reading;
mod roots;
mod seeking;
mod writing;

pub use format::Chrome;
