//! Synchronises two files, each read through a lens file, with the archive of what they last agreed on, or tells what would
//! come of it.
//!
//! This is `main` alone, which knows which store and which sink are real, and which formats and text lenses there are.
//!
//! Proved: that the formats and the text lenses with which it runs mean what they are to mean, in their order
//! (`crates/hm_program/specs/Handed.antt`), and that what it calls is called as the contracts ask. That `main` hands in the
//! words and the real files is shown by its stored run and by `tests/real-files`.
#![tactic(auto)]

ghost use Rattle.std.specs.Prelude.{◌≡◌, map};
ghost use Rattle.hm_program.specs.Handed.{AreFormats, text_lenses};

use hm_csv::Csv;
use hm_format::{Format, Plain};
use hm_ical::ICalendar;
use hm_json_marks::Chrome;
use hm_netscape_marks::Netscape;
use hm_outside::{FileStore, Sink, StdSink, Store};
use hm_program::{boxed, words_of};
use hm_text_kit::{date, email, trim, yes_no};
use hm_text_lens::TextLens;
use hm_tree::{Memory, Name};
use hm_vcard::VCard;
use std::alloc::Global;
use std::process::ExitCode;

// The exit status for want of memory.
const OUT_OF_MEMORY: u8 = 5;

// The run of these words, with the formats and the text lenses of the program.
fn run_with<S: Store, K: Sink>(
    alloc: Global,
    words: &[Name],
    store: &mut S,
    out: &mut K,
    formats: &[Box<dyn Format>],
    texts: &[Box<dyn TextLens>],
) -> u8
    requires formats { AreFormats (λ b. means b) formats.now }
    requires texts { map (λ b. meaning b) texts.now ≡ text_lenses }
{
    hm_run::run(alloc, words, store, out, formats, texts)
}

// The status of the words. Formats and text lenses are made where they are lent, since the gate takes no function that puts
// something behind a trait and gives it out.
fn status_of(alloc: Global, rt: &HostRuntime, words: &[Name]) -> Result<u8, Memory> {
    let formats: [Box<dyn Format>; 6] = [
        Box::new(alloc, Chrome::new())?,
        Box::new(alloc, Netscape::new())?,
        Box::new(alloc, VCard::new())?,
        Box::new(alloc, ICalendar::new())?,
        Box::new(alloc, Csv::new())?,
        Box::new(alloc, Plain::new())?,
    ];
    let lenses: [Box<dyn TextLens>; 4] = [
        boxed(alloc, trim(alloc))?,
        boxed(alloc, date(alloc))?,
        boxed(alloc, email(alloc))?,
        boxed(alloc, yes_no(alloc))?,
    ];
    let mut out = StdSink::new(alloc, rt.stdout());
    let mut store = FileStore::new(alloc, rt);
    Ok(run_with(alloc, words, &mut store, &mut out, &formats, &lenses))
}

// The status of what the program was called with.
fn status(alloc: Global, rt: &HostRuntime) -> Result<u8, Memory> {
    let words = words_of(alloc, rt)?;
    status_of(alloc, rt, &words)
}

fn main(rt: HostRuntime) -> ExitCode {
    let alloc = rt.alloc();
    ExitCode::from(status(alloc, &rt).unwrap_or(OUT_OF_MEMORY))
}
