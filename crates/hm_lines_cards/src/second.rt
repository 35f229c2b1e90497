//! Properties that may have one text.
ghost use Rattle.std.specs.Prelude.{◌≡◌, ◌<◌, ◌&&◌, All, Bool, IfOk, MatchOption, List, not};
ghost use Rattle.std.specs.Option.{is_some};
ghost use Rattle.std.specs.List.{list_any};
ghost use Rattle.hm_lines_cards.specs.Lines as spec;
ghost use Rattle.hm_lines_cards.specs.Lent.{AreLines, lent, line_of};

use crate::line::{Line, shows};
use hm_tree::{Memory, Name};
use std::alloc::Global;

/// The place of the first line that shows a second text of a property that may have one; none where each has one at the most.
pub fn second_of(
    alloc: Global,
    properties: &[(Name, bool)],
    lines: &[Line],
) -> Result<Option<usize>, Memory>
    requires { AreLines lines.now }
    ensures { IfOk result (λ place. MatchOption place (spec.AreFew properties.now (lent lines.now)) (spec.IsFirstSecond properties.now (lent lines.now))) }
{
    for place in 0..lines.len() {
        if is_second(alloc, properties, &lines[..place], &lines[place])? {
            return Ok(Some(place));
        }
    }
    Ok(None)
}

/// Whether a line shows a text of a property that may have one, behind lines of which one shows one too.
pub fn is_second(
    alloc: Global,
    properties: &[(Name, bool)],
    before: &[Line],
    line: &Line,
) -> Result<bool, Memory>
    requires before { AreLines before.now }
    requires line { spec.IsLine (line_of line.now) }
    ensures { IfOk result (λ found. found ≡ list_any (spec.is_second (lent before.now) (line_of line.now)) properties.now) }
{
    for property in properties {
        if is_second_of(alloc, property, before, line)? {
            return Ok(true);
        }
    }
    Ok(false)
}

// The same of one property.
fn is_second_of(
    alloc: Global,
    property: &(Name, bool),
    before: &[Line],
    line: &Line,
) -> Result<bool, Memory>
    requires before { AreLines before.now }
    requires line { spec.IsLine (line_of line.now) }
    ensures { IfOk result (λ found. found ≡ spec.is_second (lent before.now) (line_of line.now) property.now) }
{
    if property.1 {
        return Ok(false);
    }
    shows_both(alloc, &property.0, before, line)
}

// Whether a line and one of those before it show texts below a name.
fn shows_both(alloc: Global, name: &Name, before: &[Line], line: &Line) -> Result<bool, Memory>
    requires before { AreLines before.now }
    requires line { spec.IsLine (line_of line.now) }
    ensures { IfOk result (λ both. both ≡ (spec.shows name.now (line_of line.now) && list_any (spec.shows name.now) (lent before.now))) }
{
    // Of lines without a text there may be many, and none of them is compared with those before it.
    if !shows(alloc, name, line)? {
        return Ok(false);
    }
    shows_any(alloc, name, before)
}

// Whether one of some lines shows a text below a name.
fn shows_any(alloc: Global, name: &Name, lines: &[Line]) -> Result<bool, Memory>
    requires { AreLines lines.now }
    ensures { IfOk result (λ any. any ≡ list_any (spec.shows name.now) (lent lines.now)) }
{
    for line in lines {
        if shows(alloc, name, line)? {
            return Ok(true);
        }
    }
    Ok(false)
}
