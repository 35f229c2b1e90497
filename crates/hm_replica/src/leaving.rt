//! What isn't taken apart.
use hm_tree::Name;
use std::mem;

/// Lets the list of some edges go, and leaves what stands below them where it is. That is for trees which are there at the
/// end of a run: their many small pieces would take as long to give back as to make, and what is made next in their room
/// would lie scattered.
pub fn leave<T: Drop>(edges: Vec<(Name, T)>) {
    for edge in edges {
        mem::forget(edge);
    }
}
