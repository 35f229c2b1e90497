//! A run with the formats and the text lenses of the program.

use hm_csv::Csv;
use hm_format::{Format, Plain};
use hm_ical::ICalendar;
use hm_json_marks::Chrome;
use hm_netscape_marks::Netscape;
use hm_outside::{Sink, Store};
use hm_text_kit::{date, email, trim, yes_no};
use hm_text_lens::TextLens;
use hm_tree::{Memory, Name};
use hm_vcard::VCard;
use std::alloc::Global;

// A text lens in a box.
fn boxed<T: Drop>(alloc: Global, lens: Result<T, Memory>) -> Result<Box<T>, Memory> {
    Ok(Box::new(alloc, lens?)?)
}

/// The status of the words, with all formats and text lenses. Each is made where it is lent, since the gate takes no
/// function that makes one and gives it out.
pub fn run_with_all<S: Store, K: Sink>(
    alloc: Global,
    words: &[Name],
    store: &mut S,
    out: &mut K,
) -> Result<u8, Memory> {
    let formats: [Box<dyn Format>; 6] = [
        Box::new(alloc, Chrome::new())?,
        Box::new(alloc, Netscape::new())?,
        Box::new(alloc, VCard::new())?,
        Box::new(alloc, ICalendar::new())?,
        Box::new(alloc, Csv::new())?,
        Box::new(alloc, Plain::new())?,
    ];
    let lenses: [Box<dyn TextLens>; 4] = [
        boxed(alloc, trim(alloc))?,
        boxed(alloc, date(alloc))?,
        boxed(alloc, email(alloc))?,
        boxed(alloc, yes_no(alloc))?,
    ];
    Ok(hm_run::run(alloc, words, store, out, &formats, &lenses))
}
