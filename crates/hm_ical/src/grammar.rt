//! The form of files of calendars.
ghost use Rattle.std.specs.Prelude.{◌≡◌, None};
ghost use Rattle.hm_lines_cards.specs.Lines.{IsLine};
ghost use Rattle.hm_lines_cards.specs.Lent.{line_of};
ghost use Rattle.hm_ical.specs.Calendars as spec;

use crate::layout::layout_of;
use hm_lines::LineParts;
use hm_lines_cards::Line;
use hm_lines_files::{Grammar, Layout, LayoutFault, Template};
use hm_tree::{Memory, Name};
use std::alloc::Global;

/// The form of files of calendars (RFC 5545).
#[derive(Clone, Copy, Debug)]
pub(crate) struct Calendars;

impl Grammar for Calendars {
    ghost use Rattle.hm_ical.specs.Calendars.{ical};

    ghost form = { λ g. ical };

    fn tag(&self) -> u8 {
        4
    }

    fn properties(&self, alloc: Global) -> Result<Vec<(Name, bool)>, Memory> {
        Ok(vec![in alloc;
            (Name::from_text(alloc, "DESCRIPTION")?, false),
            (Name::from_text(alloc, "DTEND")?, false),
            (Name::from_text(alloc, "DTSTART")?, false),
            (Name::from_text(alloc, "LOCATION")?, false),
            (Name::from_text(alloc, "SUMMARY")?, false),
        ]?)
    }

    fn template(&self, alloc: Global) -> Result<Template<'static>, Memory> {
        Ok(Template {
            key: Name::from_text(alloc, "UID")?,
            front: vec![in alloc; Line::bare("BEGIN:VEVENT")]?,
            more: vec![in alloc; stamp_line()]?,
            end: "END:VEVENT",
        })
    }

    fn layout<'a>(
        &self,
        alloc: Global,
        shown: &[(Name, bool)],
        lines: &[&'a str],
    ) -> Result<Layout<'a>, LayoutFault> {
        layout_of(alloc, shown, lines)
    }
}

// The line by which a new event tells when it was made, which nobody knows.
fn stamp_line() -> Line<'static>
    ensures line { line_of result ≡ spec.stamp_line }
    ensures parts { IsLine (line_of result) }
{
    Line {
        text: "DTSTAMP:19700101T000000Z",
        parts: Some(LineParts {
            name_from: 0,
            name_to: 7,
            value_from: 8,
        }),
    }
}
