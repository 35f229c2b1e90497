//! A lens file whose format two of those that are handed in have the tag of.

use hm_format::{Format, Plain};
use hm_run_files::Slot;
use hm_run_handed::HandedIn;
use hm_run_sides::open_side;
use hm_text_lens::TextLens;
use std::test::Fail;

const LENS: &str =
    "harmony lens 1\nformat tree root=Any\nnode Any\n  other any Any\n  shape + 0..\nmain = id\n";

// The first counts.
#[test]
fn the_first_format_of_a_tag(rt: HostRuntime) -> Result<(), Fail> {
    let alloc = rt.alloc();
    let formats: [Box<dyn Format>; 2] = [
        Box::new(alloc, Plain::new())?,
        Box::new(alloc, Plain::new())?,
    ];
    let texts: Vec<Box<dyn TextLens>> = Vec::new(alloc);
    let given = HandedIn {
        formats: &formats,
        texts: &texts,
    };
    match open_side(alloc, Slot::LensB, given, LENS.as_bytes()) {
        Ok(side) => {
            assert_eq!(rt; side.place, 0);
            Ok(())
        }
        Err(_) => Err("a lens file is refused".into()),
    }
}
