//! The lines of properties.
ghost use Rattle.std.specs.Prelude.{◌≡◌, All, IfOk, MatchOption, Some, length, take};
ghost use Rattle.hm_lines_cards.specs.Lines.{HasParts};
ghost use Rattle.hm_lines_cards.specs.Lent.{lent, line_of, plain};
ghost use Rattle.hm_lines_files.specs.Lent.{texts};
ghost use Rattle.hm_vcard.specs.Cards.{IsProperty, is_frame};
ghost use Rattle.hm_vcard.specs.Opening.{IsOther, IsPropertyOf, EndsAt};

use hm_lines::{LineParts, parts};
use hm_lines_cards::{Line, is_named};
use hm_lines_files::room_for;
use hm_tree::Memory;
use std::alloc::Global;

/// The lines of properties in front of some lines, with room for all lines of the card in front of others.
pub fn properties<'a>(
    alloc: Global,
    lines: &[&'a str],
    card: &[&str],
) -> Result<Vec<Line<'a>>, Memory>
    ensures front { IfOk result (λ found. plain (lent found.items) ≡ take (length found.items) (texts lines.now)) }
    ensures each { IfOk result (λ found. All IsProperty (lent found.items)) }
    ensures all { IfOk result (λ found. EndsAt (texts lines.now) (length found.items)) }
{
    let mut found = room_for(alloc, card, "END:VCARD")?;
    for place in 0..lines.len() {
        match property(lines[place]) {
            Some(line) => found.push(line)?,
            None => return Ok(found),
        }
    }
    Ok(found)
}

// A line as one of a property, if it is.
fn property<'a>(text: &'a str) -> Option<Line<'a>>
    ensures { MatchOption result (IsOther text.now) (λ line. IsPropertyOf text.now (line_of line)) }
{
    match parts(text) {
        Some(parts) if !is_frame(text, parts) => Some(Line {
            text,
            parts: Some(parts),
        }),
        _ => None,
    }
}

// Whether a content line stands around properties.
fn is_frame(text: &str, parts: LineParts) -> bool
    requires { HasParts text.now (Some parts) }
    ensures { result ≡ is_frame (text.now, Some parts) }
{
    is_named(text, parts, "BEGIN")
        || is_named(text, parts, "END")
        || is_named(text, parts, "VERSION")
}
