//! Opening a file: its text without folds, its lines, and their numbers.
ghost use Rattle.std.specs.Prelude.{◌≡◌, IsUtf8, IfOk, IfErr, OnOk};
ghost use Rattle.hm_lines.specs.Unfolding.{lines as lines_of_bytes};
ghost use Rattle.hm_lines_files.specs.Lent.{texts};
ghost use Rattle.hm_lines_files.specs.Files.{full};
ghost use Rattle.hm_lines_files.specs.Stops.{IsNumberOf};
ghost use Rattle.hm_lines_files.specs.Faults.{IsTextFault, IsFaultOf};

use crate::layout_fault::LayoutFault;
use hm_format::FormatFault;
use hm_lines::first_line;
use hm_tree::Memory;
use std::alloc::Global;
use std::str;

/// The text of a file without its folds, whose bytes have to be UTF-8.
pub fn text_of(unfolded: &[u8]) -> Result<&str, FormatFault>
    ensures text { IfOk result (λ text. text.now ≡ unfolded.now) }
    ensures utf8 { OnOk result (IsUtf8 unfolded.now) }
    ensures fault { IfErr result (IsTextFault unfolded.now) }
{
    match str::from_utf8(unfolded) {
        Ok(text) => Ok(text),
        Err(error) => Err(FormatFault::NotUtf8 {
            at: error.valid_up_to(),
        }),
    }
}

/// The lines of a text that aren't empty.
pub fn full_lines(alloc: Global, text: &str) -> Result<Vec<&str>, Memory>
    ensures { IfOk result (λ found. texts found.items ≡ full (lines_of_bytes text.now)) }
{
    let mut found = Vec::new(alloc);
    let mut rest = text;
    while !rest.is_empty() {
        let line = first_line(rest.as_bytes());
        if line.to > 0 {
            found.push(&rest[..line.to])?;
        }
        rest = &rest[line.next..];
    }
    Ok(found)
}

/// The fault of a file whose lines that aren't empty stop to be those of one: the number of the line.
pub fn fault_of(text: &str, stop: LayoutFault) -> FormatFault
    ensures { IsFaultOf (lines_of_bytes text.now) stop result }
{
    match stop {
        LayoutFault::At(place) => FormatFault::BadItem {
            number: number_of(text, place),
        },
        LayoutFault::Memory => FormatFault::Memory,
    }
}

// The number of the line that stands at a place among those that aren't empty; one more than there are where there is none.
fn number_of(text: &str, place: usize) -> usize
    ensures { IsNumberOf (lines_of_bytes text.now) place result }
{
    let mut rest = text.as_bytes();
    let mut number = 1;
    let mut left = place;
    while !rest.is_empty() {
        let line = first_line(rest);
        if line.to > 0 {
            if left == 0 {
                return number;
            }
            left -= 1;
        }
        number += 1;
        rest = &rest[line.next..];
    }
    number
}
