//! What becomes of a path.

use hm_tree::Path;

/// Whether a path comes or goes.
#[derive(Clone, Copy, Debug, PartialEq, Eq)]
pub enum Turn {
    /// The new view has the path, and the old one lacks it.
    Added,
    /// The old view has the path, and the new one lacks it.
    Deleted,
}

/// A path that comes or goes, with all that stands below it.
#[derive(Drop)]
pub struct Change {
    pub turn: Turn,
    pub path: Path,
}
