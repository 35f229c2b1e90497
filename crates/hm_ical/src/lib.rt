//! Files of calendars as address books of events (RFC 5545).
//!
//! ```text
//! calendar  = "BEGIN:VCALENDAR" *property version *property *( component / property ) "END:VCALENDAR"
//! version   = "VERSION:2.0"
//! component = "BEGIN:" name *( component / property ) "END:" name
//! ```
//!
//! Each is a line of its own, as in hm_lines. Names of properties and of components have no case; both names of a
//! component are the same. A property is any content line of another name than BEGIN and END, and a VERSION has no
//! group and no parameters. Events are the components of the name VEVENT directly in the calendar. Of its UID an event
//! has one text, and so it has of a property that is shown; what stands in a component of an event is none of its own
//! (`specs/Calendars`).
//!
//! A file is scanned once, line by line, with a stack of what is open (`scanning`, `place`, `line`, `specs/Scanning`),
//! for its pieces, or for the place of the first line with which none begins. Keys and trees aren't known here.
//!
//! Proved: calendars are a form of files of components (`hm_lines_files`), whose new events and rewritten ones fit
//! (`specs/Calendars`, `proofs/Laws`), and `ICalendar` is its format.
#![tactic(auto)]

mod format;
mod grammar;
mod layout;
mod line;
mod place;
mod scanning;

pub use format::ICalendar;
