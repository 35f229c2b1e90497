//! Lines that are written.
ghost use Rattle.std.specs.Prelude.{◌≡◌, ◌≢◌, ◌++◌, ◌∷◌, [], IfOk, OnOk, MatchOption, List};
ghost use Rattle.hm_lines.specs.Folding.{AreFolded};
ghost use Rattle.hm_lines_files.specs.Components.{Bytes};
ghost use Rattle.hm_lines_files.specs.Lent.{texts};
ghost use Rattle.hm_lines_files.specs.WrittenLines.{HasWritten, Extends, IsBehind};

use hm_lines::append_folded;
use hm_tree::Memory;
use std::alloc::Global;

/// Lines that are written, folded, and whether they are those from before.
#[derive(Drop)]
pub struct Writer<'a> {
    text: Vec<u8>,
    /// The lines from before that stand behind as many as are written, where these are the same; none where they aren't.
    rest: Option<&'a [&'a str]>,
}

impl<'a> Writer<'a> {
    /// A writer of a text that is about as long as that of the lines from before.
    pub fn new(alloc: Global, before: &'a [&'a str]) -> Result<Writer<'a>, Memory>
        ensures { IfOk result (λ writer. HasWritten writer (texts before.now) []) }
    {
        Ok(Writer {
            text: Vec::with_capacity(alloc, room_for(before))?,
            rest: Some(before),
        })
    }

    /// Puts a line behind the others.
    pub fn append(&mut self, line: &str) -> Result<(), Memory>
        ensures { OnOk result (Extends self.old self.new (line.now ∷ [])) }
    {
        append_folded(&mut self.text, line)?;
        self.rest = behind(self.rest, line);
        Ok(())
    }

    /// Puts lines behind the others.
    pub fn append_all(&mut self, lines: &[&str]) -> Result<(), Memory>
        ensures { OnOk result (Extends self.old self.new (texts lines.now)) }
    {
        for line in lines {
            self.append(line)?;
        }
        Ok(())
    }

    /// The text, unless the lines are those from before.
    pub fn finish(self) -> Option<Vec<u8>>
        ensures { (before lines : List Bytes) → HasWritten self.entry before lines → MatchOption result (lines ≡ before) (λ text. (lines ≢ before) × AreFolded lines text.items) }
    {
        match self.rest {
            Some(rest) if rest.is_empty() => None,
            _ => Some(self.text),
        }
    }
}

// How long the text of lines is, if most of them aren't folded.
fn room_for(lines: &[&str]) -> usize {
    let mut room: usize = 0;
    for line in lines {
        room = room.saturating_add(line.len()).saturating_add(2);
    }
    room
}

// The lines behind the first one of a rest, where this is the line.
fn behind<'a>(rest: Option<&'a [&'a str]>, line: &str) -> Option<&'a [&'a str]>
    ensures { (before lines : List Bytes) → IsBehind before lines rest.entry → IsBehind before (lines ++ line.now ∷ []) result }
{
    let (first, others) = rest?.split_first()?;
    if *first == line { Some(others) } else { None }
}
