//! Components, and the pieces of files.
use hm_lines_cards::Line;
use hm_tree::Name;

/// A component of a file, by its lines, unfolded and without their ends.
#[derive(Drop)]
pub struct Component<'a> {
    /// All but the last. A line of a property of the component itself has its parts.
    pub lines: Vec<Line<'a>>,
    pub end: &'a str,
}

/// A piece of a file.
#[derive(Drop)]
pub enum Piece<'a> {
    /// A line of none of its components.
    Other(&'a str),
    Item(Component<'a>),
}

/// A file, by its lines.
#[derive(Drop)]
pub struct Layout<'a> {
    pub pieces: Vec<Piece<'a>>,
    /// The lines before which new components stand.
    pub end: Vec<&'a str>,
}

/// What a new component has.
#[derive(Drop)]
pub struct Template<'a> {
    /// The property whose text is its key.
    pub key: Name,
    /// The lines before that of the key, and those behind it.
    pub front: Vec<Line<'a>>,
    pub more: Vec<Line<'a>>,
    pub end: &'a str,
}
