//! The schema of bookmarks, the tree of a whole file of them, and how many folders may nest.
//!
//! A file of bookmarks has two folders at the top, the bar, which a browser shows, and the others (`specs/Bookmarks`). Its
//! tree has the edges `bar` and `other`, to the trees of what stands in the two as `hm_marks` tells them, over whatever a
//! format keeps of a link and of a folder. `marks_schema` is the schema of these trees (`specs/Schema`). Folders nest at
//! most 50 deep, and a tree is at most as deep as with all formats: `over_limits` tells of a member which of the two is
//! exceeded, and by how much (`specs/Nesting`). It walks along lists and calls itself for folders alone, since lists are
//! long. `folders_of` and `item_of` take a tree apart for a writer: its two folders, and what an item is to be.
//! `lacks_link` and `folder_at` seek a link or a folder by its key in the tree of a folder, and tell nothing where several
//! items have it. No file of bookmarks has options (`schema_under`). It knows no format.
//!
//! Proved: `marks_schema` gives that schema, of which each node's members are told and none has twins
//! (`members_are_told`), and `over_limits` tells of a member just what is over the limits. `folders_of` and `item_of` tell
//! just the parts that a member has, and what `lacks_link` and `folder_at` tell of an item is so (`specs/Sought`). Bookmarks
//! whose keys and addresses are clean have members for trees (`proofs/Members`), and where these are UTF-8 there is such a tree
//! (`proofs/SomeTree`); of each member bookmarks can be written anew, whatever stood in the file before
//! (`proofs/SomeAnew`). What `hm_marks` proves of a folder holds of the two of a file (`proofs/WholeFiles`), and as many
//! folders nest in their tree as in what stands in them (`proofs/Nesting`).
#![tactic(auto)]

mod laws;
mod limits;
mod parts;
mod schema;
mod sought;

pub use laws::members_are_told;
pub use limits::{MOST_FOLDERS, over_limits};
pub use parts::{ItemTree, folders_of, item_of};
pub use schema::{marks_schema, schema_under};
pub use sought::{FolderAt, folder_at, lacks_link};
