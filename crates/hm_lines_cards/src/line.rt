//! Lines.
ghost use Rattle.std.specs.Prelude.{◌≡◌, ℕ, List, ◌∷◌, IsTrue, IfOk, None, drop};
ghost use Rattle.std.specs.Option.{is_some};
ghost use Rattle.hm_lines.specs.Values.{text_of};
ghost use Rattle.hm_tree.specs.Classes.{is_text};
ghost use Rattle.hm_lines_cards.specs.Lines as spec;
ghost use Rattle.hm_lines_cards.specs.Lent.{line_of, bytes_of};

use hm_lines::{LineParts, unescape};
use hm_tree::{Memory, Name};
use std::alloc::Global;

/// A line of an item, unfolded and without its end.
#[derive(Clone, Copy)]
pub struct Line<'a> {
    pub text: &'a str,
    /// Its parts, if it is a property of the item. A line of a component inside of the item is none.
    pub parts: Option<LineParts>,
}

impl<'a> Line<'a> {
    /// A line that is no property of the item.
    pub fn bare(text: &'a str) -> Line<'a>
        ensures { line_of result ≡ (text.now, None) }
    {
        Line { text, parts: None }
    }
}

/// A line that is to be written.
#[derive(Drop)]
pub enum NewLine<'a> {
    /// One from before.
    Kept(&'a str),
    /// One with a new value.
    Made(String),
}

impl<'a> NewLine<'a> {
    /// The line, unfolded and without its end.
    pub fn text(&self) -> &str
        ensures { result.now ≡ bytes_of self.now }
    {
        match self {
            NewLine::Kept(text) => text,
            NewLine::Made(text) => text.as_str(),
        }
    }
}

/// Whether a line is of a property.
pub fn is_of(line: &Line, name: &Name) -> bool
    requires { spec.IsLine (line_of line.now) }
    ensures { result ≡ spec.is_of name.now (line_of line.now) }
{
    match line.parts {
        Some(parts) => is_named(line.text, parts, name.text()),
        None => false,
    }
}

/// Whether a content line has a name, without regard to case.
pub fn is_named(line: &str, parts: LineParts, name: &str) -> bool
    requires { spec.HasParts line.now (Some parts) }
    ensures { result ≡ spec.is_named name.now line.now (Some parts) }
{
    line.as_bytes()[parts.name_from..parts.name_to].eq_ignore_ascii_case(name.as_bytes())
}

/// The text that a line shows below the name of a property, if it shows one.
pub fn text_shown(alloc: Global, name: &Name, line: &Line) -> Result<Option<Name>, Memory>
    requires { spec.IsLine (line_of line.now) }
    ensures { IfOk result (λ text. text ≡ spec.text_shown name.now (line_of line.now)) }
{
    if !is_of(line, name) {
        return Ok(None);
    }
    match line.parts {
        Some(parts) => text_in(alloc, line.text, parts),
        None => Ok(None),
    }
}

/// Whether a line shows a text below the name of a property.
pub fn shows(alloc: Global, name: &Name, line: &Line) -> Result<bool, Memory>
    requires { spec.IsLine (line_of line.now) }
    ensures { IfOk result (λ shows. shows ≡ spec.shows name.now (line_of line.now)) }
{
    if !is_of(line, name) {
        return Ok(false);
    }
    match line.parts {
        Some(parts) => has_text(alloc, line.text, parts),
        None => Ok(false),
    }
}

// Whether the value of a content line has a text that isn't of spaces alone. Mostly its first byte tells, and no text is made.
fn has_text(alloc: Global, line: &str, parts: LineParts) -> Result<bool, Memory>
    requires { spec.HasParts line.now (Some parts) }
    ensures { IfOk result (λ has. has ≡ is_some (spec.text_in line.now (Some parts))) }
{
    if begins_with_text(value_of(line, parts)) {
        return Ok(true);
    }
    Ok(text_in(alloc, line, parts)?.is_some())
}

// Whether a value begins with a byte that tells that it has a text.
fn begins_with_text(value: &str) -> bool
    ensures { IsTrue result → IsTrue (is_text (text_of value.now)) }
{
    let Some(byte) = value.as_bytes().first() else {
        return false;
    };
    begins_text(*byte)
}

// Whether a byte is above the space and stands for itself in the text of a value: then there is a text, whatever is behind it.
// Of other bytes nothing is said, since what is behind them tells.
#[tactic(auto, using(crate::proofs::PlainBytes::plain_begins_text))]
fn begins_text(byte: u8) -> bool
    ensures { IsTrue result → (rest : List ℕ) → IsTrue (is_text (text_of (byte ∷ rest))) }
{
    byte > b' ' && byte != b'\\' && byte != 127
}

// The text of the value of a content line, if it isn't of spaces alone.
fn text_in(alloc: Global, line: &str, parts: LineParts) -> Result<Option<Name>, Memory>
    requires { spec.HasParts line.now (Some parts) }
    ensures { IfOk result (λ text. text ≡ spec.text_in line.now (Some parts)) }
{
    let text = unescape(alloc, value_of(line, parts))?;
    Ok(if_filled(text))
}

// The value of a content line.
fn value_of<'a>(line: &'a str, parts: LineParts) -> &'a str
    requires { spec.HasParts line.now (Some parts) }
    ensures { result.now ≡ drop parts.value_from line.now }
{
    let (_, value) = line.split_at(parts.value_from);
    value
}

// A text, if it isn't of spaces alone.
fn if_filled(text: Name) -> Option<Name>
    ensures { result ≡ spec.filled text }
{
    if text.is_text() { Some(text) } else { None }
}
