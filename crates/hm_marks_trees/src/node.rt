//! Links and folders.

use hm_tree::Name;

/// A link or a folder, with what a tree shows of it.
#[derive(Drop)]
pub enum Node {
    /// A link, by its key and its address.
    Link(Name, Name),
    /// A folder, by its key, with what stands in it.
    Folder(Name, Vec<Node>),
}
