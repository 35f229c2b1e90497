//! Conflicts, each with what shows why.

use hm_tree::{NameSet, Path};

/// Why the two sides couldn't be brought to agree at a path.
#[derive(Drop)]
pub enum Why {
    /// They were in conflict there before, and still differ.
    Earlier,
    /// One side deleted what stands there, and the other has something there or below that the archive doesn't hold:
    /// the first such path, where a path stands before its extensions, and siblings in the order of their names.
    Lost { kept: Path },
    /// The schema doesn't permit the names that come to stand there, on the left or on the right side.
    Names { left: NameSet, right: NameSet },
}

/// A path at which the two sides stay as they were.
#[derive(Drop)]
pub struct Conflict {
    pub path: Path,
    pub why: Why,
}
