//! Places between the lines of a calendar.
use hm_lines_cards::Line;
use hm_lines_files::Piece;

/// Where the lines of a calendar have led.
#[derive(Drop)]
pub(crate) enum Place<'a> {
    /// Before the first line.
    Before,
    /// Behind the last.
    Behind,
    /// Directly in the calendar, whose version has been told or not yet.
    Calendar { told: bool },
    /// In an event, or in components of it.
    Event(Event<'a>),
    /// In another component.
    Other(Nested<'a>),
}

/// An event with these lines so far, and the names of the components of it, the innermost last.
#[derive(Drop)]
pub(crate) struct Event<'a> {
    pub(crate) lines: Vec<Line<'a>>,
    pub(crate) names: Vec<&'a str>,
}

/// A component of this name, and the names of those around it, the innermost last.
#[derive(Drop)]
pub(crate) struct Nested<'a> {
    pub(crate) name: &'a str,
    pub(crate) around: Vec<&'a str>,
}

/// What a line does at a place.
#[derive(Drop)]
pub(crate) enum Step<'a> {
    /// It doesn't fit.
    Stuck,
    /// It leads on, and is of no piece that ends with it.
    On,
    /// It leads on, and this piece ends with it.
    Ends(Piece<'a>),
}

/// What a line does in a component.
#[derive(Clone, Copy)]
pub(crate) enum Move {
    /// It doesn't fit.
    Stuck,
    /// It is of it.
    On,
    /// It ends the component.
    Out,
}
