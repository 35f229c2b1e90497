//! The format of files of calendars.
use crate::grammar::Calendars;
use hm_format::{Format, FormatFault};
use hm_lines_files::{read_book, schema_of, write_book};
use hm_schema::{Options, Schema};
use hm_tree::Tree;
use std::alloc::Global;

/// Files of calendars (RFC 5545): an address book of their events.
#[derive(Drop)]
pub struct ICalendar;

impl ICalendar {
    ghost use Rattle.hm_format.specs.Meanings.{MeanTheSame};
    ghost use Rattle.hm_lines_files.specs.Writing.{meaning_of};
    ghost use Rattle.hm_ical.specs.Calendars.{ical};

    /// The format.
    #[tactic(auto, using(hm_format::specs::Meanings::means_itself))]
    pub fn new() -> ICalendar
        ensures { MeanTheSame (⟦<ICalendar as Format>⟧.means result) (meaning_of ical) }
    {
        ICalendar
    }
}

impl Format for ICalendar {
    ghost use Rattle.hm_lines_files.specs.Writing.{meaning_of};
    ghost use Rattle.hm_ical.specs.Calendars.{ical};

    ghost means = { λ f. meaning_of ical };

    fn tag(&self) -> u8 {
        4
    }

    fn schema(&self, alloc: Global, options: &Options) -> Result<Schema, FormatFault> {
        schema_of(alloc, &Calendars, options)
    }

    fn read(&self, alloc: Global, options: &Options, bytes: &[u8]) -> Result<Tree, FormatFault> {
        read_book(alloc, &Calendars, options, bytes)
    }

    fn write(
        &self,
        alloc: Global,
        options: &Options,
        tree: &Tree,
        before: &[u8],
    ) -> Result<Vec<u8>, FormatFault> {
        write_book(alloc, &Calendars, options, tree, before)
    }
}
