//! The name that is spelled at the front of bytes.
ghost use Rattle.std.specs.Prelude.{◌≡◌, ◌≢◌, ◌+◌, ◌<◌, ◌≤◌, ◌∷◌, [], ◌++◌, List, ℕ, length, take, IfOk, MatchOption};
ghost use Rattle.hm_tree_spelling.specs.Spelling.{spelled_byte, escaped, IsUnspelled, IsUnspelledByte};
ghost use Rattle.std.specs.Char.{digit_char};

use crate::plain::{is_control, is_plain, is_quote_or_backslash, plain_len};
use hm_tree::{Memory, Name};
use std::alloc::Global;
use std::str;

/// The name that is spelled at the front, and the length of that spelling; none where no name's spelling stands there.
pub fn unspell_name(alloc: Global, bytes: &[u8]) -> Result<Option<(Name, usize)>, Memory>
    ensures { IfOk result (IsUnspelled bytes.now) }
{
    let Some(first) = bytes.first() else {
        return Ok(None);
    };
    if *first != b'"' {
        return Ok(None);
    }
    unspell_rest(alloc, &bytes[1..])
}

// The same behind the first quote.
fn unspell_rest(alloc: Global, rest: &[u8]) -> Result<Option<(Name, usize)>, Memory>
    ensures { IfOk result (IsUnspelled (34 ∷ rest.now)) }
{
    let plain = plain_len(rest);
    if plain < rest.len() && rest[plain] == b'"' {
        unspell_plain(alloc, rest, plain)
    } else {
        unspell_escaped(alloc, rest)
    }
}

// The same where that quote stands behind bytes that stand for themselves. Most names are spelled so, and are read where they stand.
fn unspell_plain(alloc: Global, rest: &[u8], plain: usize) -> Result<Option<(Name, usize)>, Memory>
    requires within { plain < length rest.now }
    requires spelled { take (plain + 1) rest.now ≡ escaped (take plain rest.now) ++ 34 ∷ [] }
    ensures { IfOk result (IsUnspelled (34 ∷ rest.now)) }
{
    match str::from_utf8(&rest[..plain]) {
        Ok(text) => Ok(Some((Name::from_text(alloc, text)?, plain + 2))),
        Err(_) => Ok(None),
    }
}

// The same where something is escaped, or no quote follows.
fn unspell_escaped(alloc: Global, rest: &[u8]) -> Result<Option<(Name, usize)>, Memory>
    ensures { IfOk result (IsUnspelled (34 ∷ rest.now)) }
{
    let Some((text, length)) = unescape(alloc, rest)? else {
        return Ok(None);
    };
    match String::from_utf8(text) {
        Ok(text) => Ok(Some((Name::from_string(alloc, text)?, length + 1))),
        Err(_) => Ok(None),
    }
}

// The bytes whose spelling ends at the first quote that isn't escaped, and its length with that quote.
fn unescape(alloc: Global, bytes: &[u8]) -> Result<Option<(Vec<u8>, usize)>, Memory>
    ensures { IfOk result (λ found. MatchOption found ((name rest : List ℕ) → bytes.now ≢ escaped name ++ 34 ∷ rest) (λ f. (f.1 ≤ length bytes.now) × (take f.1 bytes.now ≡ escaped f.0.items ++ 34 ∷ []))) }
{
    let mut at = plain_len(bytes);
    let mut text = Vec::with_capacity(alloc, at)?;
    text.extend_from_slice(&bytes[..at])?;
    while at < bytes.len() && bytes[at] != b'"' {
        match byte_at(&bytes[at..]) {
            Some((byte, length)) => {
                text.push(byte)?;
                at += length;
            }
            None => return Ok(None),
        }
    }
    if at < bytes.len() {
        Ok(Some((text, at + 1)))
    } else {
        Ok(None)
    }
}

// The byte whose spelling stands at the front, and the length of that spelling.
fn byte_at(bytes: &[u8]) -> Option<(u8, usize)>
    ensures { IsUnspelledByte bytes.now result }
{
    match bytes {
        [b'\\', b'x', high, low, ..] => match control_of(*high, *low) {
            Some(byte) => Some((byte, 4)),
            None => None,
        },
        [b'\\', byte, ..] if is_quote_or_backslash(*byte) => Some((*byte, 2)),
        [byte, ..] if is_plain(*byte) => Some((*byte, 1)),
        _ => None,
    }
}

// The control character that is spelled by two digits.
fn control_of(high: u8, low: u8) -> Option<u8>
    ensures { MatchOption result ((b : ℕ) → spelled_byte b ≢ 92 ∷ 120 ∷ high ∷ low ∷ []) (λ b. spelled_byte b ≡ 92 ∷ 120 ∷ high ∷ low ∷ []) }
{
    let high = digit_of(high)?;
    let low = digit_of(low)?;
    let byte = high * 16 + low;
    if is_control(byte) { Some(byte) } else { None }
}

// The number below 16 whose lower-case hexadecimal digit a byte is.
fn digit_of(byte: u8) -> Option<u8>
    ensures { MatchOption result ((d : ℕ) → d < 16 → byte ≢ digit_char d) (λ d. (d < 16) × (byte ≡ digit_char d)) }
{
    match byte {
        b'0'..=b'9' => Some(byte - b'0'),
        b'a'..=b'f' => Some(byte - b'a' + 10),
        _ => None,
    }
}
