//! Folding lines (RFC 5545, section 3.1; RFC 6350, section 3.2).
ghost use Rattle.std.specs.Prelude.{◌≡◌, ◌++◌, ℕ, List, All, IsUtf8, IfOk, OnOk, OnErr, map};
ghost use Rattle.hm_lines.specs.Folding.{IsPlain, IsFolded, AreFolded, Appends};
ghost use Rattle.hm_lines.specs.Shown.{bytes_of};
ghost use Rattle.hm_lines.specs.Unfolding as spec;

use hm_tree::Memory;
use std::alloc::Global;
use std::str;

// How many octets the first piece of a line has at the most, and each further one, which stands behind a space.
const FIRST_LIMIT: usize = 75;

const FURTHER_LIMIT: usize = 74;

/// Lines, each with CRLF behind it, and folded where it is of more than 75 octets. Unfolded they are the same lines,
/// where none has a line feed or begins with a space or a tab.
pub fn fold(alloc: Global, lines: &[Vec<u8>]) -> Result<Vec<u8>, Memory>
    requires { All (λ line. IsUtf8 line.items) lines.now }
    ensures folded { IfOk result (λ folded. AreFolded (map bytes_of lines.now) folded.items) }
    ensures unfolded { IfOk result (λ folded. All IsPlain (map bytes_of lines.now) → spec.lines (spec.unfolded folded.items) ≡ map bytes_of lines.now) }
{
    let mut folded = Vec::new(alloc);
    for line in lines {
        match str::from_utf8(line) {
            Ok(text) => append_folded(&mut folded, text)?,
            Err(_) => unreachable!(),
        }
    }
    Ok(folded)
}

/// Puts a line behind some bytes, with CRLF behind it, and folded where it is of more than 75 octets: the first piece of it
/// is the longest beginning of at most 75 octets that ends at a character, each further one the longest of at most 74, behind
/// a space.
pub fn append_folded(folded: &mut Vec<u8>, line: &str) -> Result<(), Memory>
    ensures ok { OnOk result (Appends folded.old.items folded.new.items (IsFolded line.now)) }
    ensures err { OnErr result (folded.new.items ≡ folded.old.items) }
{
    let start = folded.len();
    let appended = append_pieces(folded, line);
    if appended.is_err() {
        folded.truncate(start);
    }
    appended
}

// Puts a line behind some bytes piece by piece; without memory for one of them the pieces before it stay.
fn append_pieces(folded: &mut Vec<u8>, line: &str) -> Result<(), Memory>
    ensures ok { OnOk result (Appends folded.old.items folded.new.items (IsFolded line.now)) }
    ensures kept { (more : List ℕ) × (folded.new.items ≡ folded.old.items ++ more) }
{
    let mut rest = line;
    let mut limit = FIRST_LIMIT;
    while rest.len() > limit {
        let (piece, behind) = rest.split_at(rest.floor_char_boundary(limit));
        folded.extend_from_slice(piece.as_bytes())?;
        folded.extend_from_slice(b"\r\n ")?;
        rest = behind;
        limit = FURTHER_LIMIT;
    }
    folded.extend_from_slice(rest.as_bytes())?;
    folded.extend_from_slice(b"\r\n")?;
    Ok(())
}
