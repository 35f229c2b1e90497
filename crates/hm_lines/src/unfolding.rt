//! Unfolding bytes, and the lines that stand in what is unfolded (RFC 5545, section 3.1; RFC 6350, section 3.2).
ghost use Rattle.std.specs.Prelude.{◌≡◌, ◌<◌, IsUtf8, IfOk, length, map};
ghost use Rattle.std.specs.Str.{IsCharBoundary};
ghost use Rattle.std.specs.Cow.{cow_slice_items};
ghost use Rattle.hm_lines.specs.Unfolding.{unfolded, lines, begins_with_blank, without_return, IsFirstFold, IsFirstLine};
ghost use Rattle.hm_lines.specs.Shown.{bytes_of};

use hm_tree::Memory;
use memchr::memchr;
use std::alloc::Global;
use std::borrow::CowSlice;

/// The lines of folded bytes, without their ends.
pub fn unfold(alloc: Global, bytes: &[u8]) -> Result<Vec<Vec<u8>>, Memory>
    ensures { IfOk result (λ found. map bytes_of found.items ≡ lines (unfolded bytes.now)) }
{
    let unfolded = without_folds(alloc, bytes)?;
    copies(alloc, &unfolded)
}

/// Bytes without their folds: each line feed before a space or a tab is taken out, with that blank and with one carriage
/// return just before it. Bytes that have no fold are lent as they are.
pub fn without_folds<'a>(alloc: Global, folded: &'a [u8]) -> Result<CowSlice<'a, u8>, Memory>
    ensures { IfOk result (λ made. cow_slice_items made ≡ unfolded folded.now) }
{
    match first_fold(folded) {
        Some(_) => Ok(CowSlice::Owned(take_out_folds(alloc, folded)?)),
        None => Ok(CowSlice::Borrowed(folded)),
    }
}

/// Where the first line of some bytes ends, and where the next one begins.
#[derive(Clone, Copy, Debug, PartialEq, Eq)]
pub struct FirstLine {
    /// Where the line ends, before its line feed and one carriage return.
    pub to: usize,
    /// Where the next one begins: behind the line feed, or at the end of the bytes.
    pub next: usize,
}

/// Where the first line of bytes ends, which aren't empty, and where the next one begins.
pub fn first_line(bytes: &[u8]) -> FirstLine
    requires { 0 < length bytes.now }
    ensures line { IsFirstLine bytes.now result }
    ensures characters { IsUtf8 bytes.now → IsCharBoundary bytes.now result.to × IsCharBoundary bytes.now result.next }
{
    match memchr(b'\n', bytes) {
        Some(at) => FirstLine {
            to: without_return(&bytes[..at]).len(),
            next: at + 1,
        },
        None => FirstLine {
            to: without_return(bytes).len(),
            next: bytes.len(),
        },
    }
}

// Copies of the lines of bytes.
fn copies(alloc: Global, bytes: &[u8]) -> Result<Vec<Vec<u8>>, Memory>
    ensures { IfOk result (λ found. map bytes_of found.items ≡ lines bytes.now) }
{
    let mut found = Vec::new(alloc);
    let mut rest = bytes;
    while !rest.is_empty() {
        let line = first_line(rest);
        found.push(Vec::from_slice(alloc, &rest[..line.to])?)?;
        rest = &rest[line.next..];
    }
    Ok(found)
}

// A copy of bytes without their folds.
fn take_out_folds(alloc: Global, folded: &[u8]) -> Result<Vec<u8>, Memory>
    ensures { IfOk result (λ made. made.items ≡ unfolded folded.now) }
{
    let mut made = Vec::with_capacity(alloc, folded.len())?;
    let mut rest = folded;
    while let Some(at) = first_fold(rest) {
        let (front, fold) = rest.split_at(at);
        made.extend_from_slice(without_return(front))?;
        rest = &fold[2..];
    }
    made.extend_from_slice(rest)?;
    Ok(made)
}

// Where the first fold of some bytes stands: its line feed.
fn first_fold(bytes: &[u8]) -> Option<usize>
    ensures { IsFirstFold bytes.now result }
{
    let mut from = 0;
    while let Some(ahead) = memchr(b'\n', &bytes[from..]) {
        let at = from + ahead;
        from = at + 1;
        if begins_with_blank(&bytes[from..]) {
            return Some(at);
        }
    }
    None
}

// Whether bytes begin with a space or a tab.
fn begins_with_blank(bytes: &[u8]) -> bool
    ensures { result ≡ begins_with_blank bytes.now }
{
    match bytes.first() {
        Some(byte) => *byte == b' ' || *byte == b'\t',
        None => false,
    }
}

// Bytes without one carriage return at the end.
fn without_return(bytes: &[u8]) -> &[u8]
    ensures { result.now ≡ without_return bytes.now }
{
    match bytes.split_last() {
        Some((last, front)) if *last == b'\r' => front,
        _ => bytes,
    }
}
