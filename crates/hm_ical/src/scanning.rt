//! The lines of a calendar one after another.
ghost use Rattle.std.specs.Prelude.{◌≡◌, ◌++◌, ◌∷◌, [], IfOk, List, None, Some, cond};
ghost use Rattle.std.specs.List.{list_any};
ghost use Rattle.hm_book_cards.specs.Cards.{Shown};
ghost use Rattle.hm_lines_cards.specs.Lines.{IsLine, is_second};
ghost use Rattle.hm_lines_cards.specs.Lent.{AreLines, lent, line_of};
ghost use Rattle.hm_lines_files.specs.Components.{Bytes, other};
ghost use Rattle.hm_ical.specs.Scanning as spec;
ghost use Rattle.hm_ical.specs.Lent.{kind_of, names_of, event_of, place_of, step_of, moved, move_of, nested_of};

use crate::line::{LineKind, is_same};
use crate::place::{Event, Move, Nested, Place, Step};
use hm_lines_cards::{Line, is_second};
use hm_lines_files::{Component, Piece, room_for};
use hm_tree::{Memory, Name};
use std::alloc::Global;
use std::mem;

/// Goes on from a place by a line of a kind, if it fits there, and else leaves it of no use; some properties may have one text
/// alone. Of the lines that are left, this one first, it's told how much room an event takes.
pub(crate) fn next<'a>(
    alloc: Global,
    singles: &[(Name, bool)],
    at: &mut Place<'a>,
    line: &'a str,
    kind: LineKind<'a>,
    left: &[&str],
) -> Result<Step<'a>, Memory>
    requires sound { spec.AreSound (place_of at.old) }
    requires is { spec.IsKind line.now (kind_of kind) }
    ensures { IfOk result (λ step. step_of step (place_of at.new) ≡ spec.next singles.now (place_of at.old) line.now (kind_of kind.entry)) }
{
    match at {
        Place::Before => Ok(from_start(at, line, kind)),
        Place::Behind => Ok(Step::Stuck),
        Place::Calendar { told } => {
            let told = *told;
            in_calendar(alloc, at, told, line, kind, left)
        }
        Place::Event(event) => match in_event(alloc, singles, event, line, kind)? {
            Move::Stuck => Ok(Step::Stuck),
            Move::On => Ok(Step::On),
            Move::Out => {
                let lines = mem::replace(&mut event.lines, Vec::new(alloc));
                *at = Place::Calendar { told: true };
                Ok(Step::Ends(Piece::Item(Component { lines, end: line })))
            }
        },
        Place::Other(nested) => match in_nested(nested, kind)? {
            Move::Stuck => Ok(Step::Stuck),
            Move::On => Ok(Step::Ends(Piece::Other(line))),
            Move::Out => {
                *at = Place::Calendar { told: true };
                Ok(Step::Ends(Piece::Other(line)))
            }
        },
    }
}

fn from_start<'a>(at: &mut Place<'a>, line: &'a str, kind: LineKind<'a>) -> Step<'a>
    ensures { step_of result (place_of at.new) ≡ spec.from_start line.now (kind_of kind.entry) }
{
    match kind {
        LineKind::Begin(name) if is_same(name, "VCALENDAR") => {
            *at = Place::Calendar { told: false };
            Step::Ends(Piece::Other(line))
        }
        _ => Step::Stuck,
    }
}

// Directly in the calendar.
fn in_calendar<'a>(
    alloc: Global,
    at: &mut Place<'a>,
    told: bool,
    line: &'a str,
    kind: LineKind<'a>,
    left: &[&str],
) -> Result<Step<'a>, Memory>
    ensures { IfOk result (λ step. step_of step (place_of at.new) ≡ spec.in_calendar told line.now (kind_of kind.entry)) }
{
    match kind {
        LineKind::Property(_) => {
            *at = Place::Calendar {
                told: told || is_same(line, "VERSION:2.0"),
            };
            Ok(Step::Ends(Piece::Other(line)))
        }
        LineKind::Begin(name) if told => into_component(alloc, at, line, name, left),
        LineKind::End(name) if told && is_same(name, "VCALENDAR") => {
            *at = Place::Behind;
            Ok(Step::On)
        }
        _ => Ok(Step::Stuck),
    }
}

// Into the component of a name that a line begins.
fn into_component<'a>(
    alloc: Global,
    at: &mut Place<'a>,
    line: &'a str,
    name: &'a str,
    left: &[&str],
) -> Result<Step<'a>, Memory>
    ensures { IfOk result (λ step. step_of step (place_of at.new) ≡ spec.into_component line.now name.now) }
{
    if is_same(name, "VEVENT") {
        let mut lines = room_for(alloc, left, "END:VEVENT")?;
        lines.push(Line::bare(line))?;
        *at = Place::Event(Event {
            lines,
            names: Vec::new(alloc),
        });
        return Ok(Step::On);
    }
    *at = Place::Other(Nested {
        name,
        around: Vec::new(alloc),
    });
    Ok(Step::Ends(Piece::Other(line)))
}

// In a component that is no event, and in those around it.
fn in_nested<'a>(nested: &mut Nested<'a>, kind: LineKind<'a>) -> Result<Move, Memory>
    ensures { IfOk result (λ made. (line : Bytes) → nested_of made line nested.new ≡ spec.in_component nested.old.name.now (names_of nested.old.around.items) line (kind_of kind.entry)) }
{
    match kind {
        LineKind::Property(_) => Ok(Move::On),
        LineKind::Begin(inner) => {
            nested.around.push(nested.name)?;
            nested.name = inner;
            Ok(Move::On)
        }
        LineKind::End(ended) if is_same(ended, nested.name) => Ok(out_of(nested)),
        LineKind::End(_) => Ok(Move::Stuck),
    }
}

// Out of a component, into the innermost of those around it.
fn out_of(nested: &mut Nested<'_>) -> Move
    ensures { (line : Bytes) → nested_of result line nested.new ≡ spec.step_with (other line) (spec.around (names_of nested.old.around.items)) }
{
    match nested.around.pop() {
        Some(name) => {
            nested.name = name;
            Move::On
        }
        None => Move::Out,
    }
}

// In an event, and in components of it.
fn in_event<'a>(
    alloc: Global,
    singles: &[(Name, bool)],
    event: &mut Event<'a>,
    line: &'a str,
    kind: LineKind<'a>,
) -> Result<Move, Memory>
    requires lines { AreLines event.old.lines.items }
    requires is { spec.IsKind line.now (kind_of kind) }
    ensures { IfOk result (λ made. move_of made line.now event.new ≡ spec.next singles.now (event_of event.old) line.now (kind_of kind.entry)) }
{
    match kind {
        LineKind::Begin(name) => {
            event.names.push(name)?;
            with_line(&mut event.lines, Line::bare(line))
        }
        LineKind::End(name) => out_of_inner(event, line, name),
        LineKind::Property(parts) if event.names.is_empty() => with_own(
            alloc,
            singles,
            &mut event.lines,
            Line {
                text: line,
                parts: Some(parts),
            },
        ),
        LineKind::Property(_) => with_line(&mut event.lines, Line::bare(line)),
    }
}

// With one line more.
fn with_line<'a>(lines: &mut Vec<Line<'a>>, line: Line<'a>) -> Result<Move, Memory>
    ensures { IfOk result (λ made. (names : List Bytes) (text : Bytes) → moved made text (lent lines.new.items) names ≡ spec.with_line (lent lines.old.items) (line_of line.entry) names) }
{
    lines.push(line)?;
    Ok(Move::On)
}

// With a property of the event itself, unless it shows a second text where there may be one.
fn with_own<'a>(
    alloc: Global,
    singles: &[(Name, bool)],
    lines: &mut Vec<Line<'a>>,
    line: Line<'a>,
) -> Result<Move, Memory>
    requires lines { AreLines lines.old.items }
    requires line { IsLine (line_of line) }
    ensures { IfOk result (λ made. (names : List Bytes) (text : Bytes) → moved made text (lent lines.new.items) names ≡ cond (list_any (is_second (lent lines.old.items) (line_of line.entry)) singles.now) None (spec.with_line (lent lines.old.items) (line_of line.entry) names)) }
{
    if is_second(alloc, singles, lines, &line)? {
        return Ok(Move::Stuck);
    }
    with_line(lines, line)
}

// Out of the event, or out of the innermost component of it.
fn out_of_inner<'a>(event: &mut Event<'a>, line: &'a str, name: &'a str) -> Result<Move, Memory>
    ensures { IfOk result (λ made. (singles : Shown) → move_of made line.now event.new ≡ spec.next singles (event_of event.old) line.now (spec.end name.now)) }
{
    match event.names.pop() {
        Some(inner) if is_same(name, inner) => with_line(&mut event.lines, Line::bare(line)),
        None if is_same(name, "VEVENT") => Ok(Move::Out),
        _ => Ok(Move::Stuck),
    }
}
