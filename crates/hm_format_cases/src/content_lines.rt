//! Lines as they stand in files of cards and calendars.
use crate::setting::{expect, lines_of};
use hm_lines::{fold, unfold, without_folds};
use hm_tree::Memory;
use std::alloc::Global;
use std::borrow::CowSlice;
use std::test::Fail;

// What a text is without its folds, and whether that is made anew.
fn is_unfolded(alloc: Global, text: &str, want: &str, owned: bool) -> Result<bool, Memory> {
    let made = without_folds(alloc, text.as_bytes())?;
    Ok(made.as_slice() == want.as_bytes() && matches!(made, CowSlice::Owned(_)) == owned)
}

const UNFOLDED: &[(&str, &str, bool)] = &[
    ("a:1\r\n 2\r\nb:3", "a:12\r\nb:3", true),
    ("a:12\r\nb:3\n", "a:12\r\nb:3\n", false),
];

#[test]
fn bytes_without_folds_are_lent(rt: HostRuntime) -> Result<(), Fail> {
    for (text, want, owned) in UNFOLDED {
        expect(is_unfolded(rt.alloc(), text, want, *owned)?, text)?;
    }
    Ok(())
}

// An empty line stands in no file that is written.
#[test]
fn all_lines_are_folded_and_unfolded(rt: HostRuntime) -> Result<(), Fail> {
    let alloc = rt.alloc();
    let lines = lines_of(alloc, &["a:1", "", "b:é"])?;
    let folded = fold(alloc, &lines)?;
    expect(
        folded.as_slice() == "a:1\r\n\r\nb:é\r\n".as_bytes(),
        "three lines",
    )?;
    expect(
        unfold(alloc, &folded)?.as_slice() == lines.as_slice(),
        "the same lines",
    )
}
