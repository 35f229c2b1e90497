//! Formats by the words that lens files name them with.
ghost use Rattle.std.specs.Prelude.{◌≡◌, ◌==◌, IfSome, IfOk};
ghost use Rattle.hm_format.specs.Formats.{IsLawful};
ghost use Rattle.hm_run_files.specs.Steps.{Computes};
ghost use Rattle.hm_run_sides.specs.Formats.{HasFormat, tag_named, first_of, first_named, FindsFormat};

use hm_format::Format;
use hm_run_files::{FileFault, Refusal, Slot, Stop};
use hm_tree::Name;

/// The place of the first format that has the tag of a word.
pub fn find_format(slot: Slot, formats: &[Box<dyn Format>], word: &Name) -> Result<usize, Stop>
    ensures finds { Computes (FindsFormat (λ b. means b) formats.now slot word.now) result }
    ensures lawful { IfOk result (λ place. HasFormat (λ b. means b) formats.now place IsLawful) }
{
    match first_named(formats, word) {
        Some(place) => Ok(place),
        None => Err(Stop::Refused(Refusal::At(slot, FileFault::UnknownFormat(word.copy()?)))),
    }
}

fn first_named(formats: &[Box<dyn Format>], word: &Name) -> Option<usize>
    ensures place { result ≡ first_named (λ b. means b) formats.now word.now }
    ensures lawful { IfSome result (λ place. HasFormat (λ b. means b) formats.now place IsLawful) }
{
    match tag_named(word) {
        Some(tag) => first_of(formats, tag),
        None => None,
    }
}

// The tag of the format that a word names. A word may have its tag before there is a format for it.
fn tag_named(word: &Name) -> Option<u8>
    ensures { result ≡ tag_named word.now }
{
    match word.text() {
        "chrome" => Some(1),
        "netscape" => Some(2),
        "vcard" => Some(3),
        "icalendar" => Some(4),
        "csv" => Some(5),
        "tree" => Some(6),
        _ => None,
    }
}

// The place of the first format of a tag.
fn first_of(formats: &[Box<dyn Format>], tag: u8) -> Option<usize>
    ensures place { result ≡ first_of (λ b. means b) formats.now tag }
    ensures lawful { IfSome result (λ place. HasFormat (λ b. means b) formats.now place IsLawful) }
{
    for (place, format) in formats.iter().enumerate() {
        if has_tag(format, tag) {
            return Some(place);
        }
    }
    None
}

fn has_tag(format: &Box<dyn Format>, tag: u8) -> bool
    ensures has { result ≡ ((means format.now).tag == tag) }
    ensures lawful { IsLawful (means format.now) }
{
    format.tag() == tag
}
