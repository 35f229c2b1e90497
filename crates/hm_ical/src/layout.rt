//! The pieces of a calendar.
ghost use Rattle.std.specs.Prelude.{◌≡◌, ◌-◌, ◌<◌, IfErr, IfOk, None, Some, cond, drop, length};
ghost use Rattle.hm_schema.specs.Values.{OptionsValue};
ghost use Rattle.hm_lines_files.specs.Forms.{shown_of};
ghost use Rattle.hm_lines_files.specs.Lent.{texts, pieces_of, layout_of, HaveLines};
ghost use Rattle.hm_lines_files.specs.Stops.{AreOf, IsStop};
ghost use Rattle.hm_ical.specs.Events.{singles as singles_of};
ghost use Rattle.hm_ical.specs.Calendars.{ical};
ghost use Rattle.hm_ical.specs.Scanning as spec;
ghost use Rattle.hm_ical.specs.Lent.{place_of};

use crate::line::kind_of;
use crate::place::{Place, Step};
use crate::scanning::next;
use hm_lines_files::{Layout, LayoutFault, Piece};
use hm_tree::{Memory, Name};
use std::alloc::Global;

/// The pieces of a calendar with these lines, of which none is empty, or the place of the first line with which none begins.
/// Of the properties that are shown an event has one text alone.
pub fn layout_of<'a>(
    alloc: Global,
    shown: &[(Name, bool)],
    lines: &[&'a str],
) -> Result<Layout<'a>, LayoutFault>
    ensures layout { (o : OptionsValue) → shown.now ≡ shown_of ical o → IfOk result (λ l. AreOf ical o (texts lines.now) (layout_of l)) }
    ensures lines { IfOk result (λ l. HaveLines l.pieces.items) }
    ensures stop { (o : OptionsValue) → shown.now ≡ shown_of ical o → IfErr result (IsStop ical o (texts lines.now)) }
{
    let singles = singles(alloc, shown)?;
    let pieces = pieces(alloc, &singles, lines)?;
    Ok(Layout {
        pieces,
        end: last(alloc, lines)?,
    })
}

// The properties of which an event has one text: its key, and those that are shown.
fn singles(alloc: Global, shown: &[(Name, bool)]) -> Result<Vec<(Name, bool)>, Memory>
    ensures { IfOk result (λ singles. singles.items ≡ singles_of shown.now) }
{
    let mut singles = vec![in alloc; (Name::from_text(alloc, "UID")?, false)]?;
    for property in shown {
        singles.push((property.0.copy()?, property.1))?;
    }
    Ok(singles)
}

// The pieces of lines that lead to the end.
fn pieces<'a>(
    alloc: Global,
    singles: &[(Name, bool)],
    lines: &[&'a str],
) -> Result<Vec<Piece<'a>>, LayoutFault>
    ensures pieces { IfOk result (λ pieces. spec.Runs singles.now spec.before (texts lines.now) (pieces_of pieces.items) spec.behind) }
    ensures stop { IfErr result (spec.IsRunStop singles.now (texts lines.now)) }
{
    let mut pieces = Vec::new(alloc);
    let mut at = Place::Before;
    for place in 0..lines.len() {
        let (_, left) = lines.split_at(place);
        if !step(alloc, singles, &mut pieces, &mut at, lines[place], left)? {
            return Err(LayoutFault::At(place));
        }
    }
    match at {
        Place::Behind => Ok(pieces),
        _ => Err(LayoutFault::At(lines.len())),
    }
}

// Goes on by a line, if it fits, with which some lines begin; puts the piece that ends with it behind others.
fn step<'a>(
    alloc: Global,
    singles: &[(Name, bool)],
    pieces: &mut Vec<Piece<'a>>,
    at: &mut Place<'a>,
    line: &'a str,
    left: &[&str],
) -> Result<bool, Memory>
    requires { spec.AreSound (place_of at.old) }
    ensures { IfOk result (λ fits. spec.IsStep singles.now (place_of at.old) line.now (pieces_of pieces.old.items) (pieces_of pieces.new.items) (cond fits (Some (place_of at.new)) None)) }
{
    let Some(kind) = kind_of(line) else {
        return Ok(false);
    };
    match next(alloc, singles, at, line, kind, left)? {
        Step::Stuck => return Ok(false),
        Step::On => {}
        Step::Ends(piece) => pieces.push(piece)?,
    }
    Ok(true)
}

// The last of some lines, alone.
fn last<'a>(alloc: Global, lines: &[&'a str]) -> Result<Vec<&'a str>, Memory>
    requires { 0 < length lines.now }
    ensures { IfOk result (λ last. last.items ≡ drop (length lines.now - 1) lines.now) }
{
    let (_, last) = lines.split_at(lines.len() - 1);
    Ok(Vec::from_slice(alloc, last)?)
}
