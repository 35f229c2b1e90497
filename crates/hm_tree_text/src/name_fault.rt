//! Where a name can't go on.
ghost use Rattle.std.specs.Prelude.{◌≡◌, ◌↔◌, ◌<◌, ◌≤◌, ◌∷◌, ◌++◌, true, List, ℕ, IsTrue, length, Option, option_copied, MatchOption};
ghost use Rattle.hm_tree.specs.Names.{Name as NameValue};
ghost use Rattle.hm_tree_spelling.specs.Spelling.{is_plain, spelled_byte};
ghost use Rattle.hm_tree_text.specs.Characters.{IsOpen, complete};
ghost use Rattle.hm_tree_text.specs.NameRest.{IsNameRest, IsLeast, left_behind, IsNext, shared as shared_of, IsMostShared, IsByteAt, IsStep, IsLeftOf};
ghost use Rattle.hm_tree_text.specs.Reading.{BeginsWith, IsName, IsLongestPart};

use crate::character::{COMPLETE, Character};
use crate::place::is_at;
use hm_tree::Name;
use hm_tree_spelling::spell_byte;

/// The length of the longest part with which the spelling of a name behind the last one goes on.
pub fn name_fault(bytes: &[u8], last: Option<&Name>) -> usize
    requires { ¬ (BeginsWith (IsName (option_copied last)) bytes.now) }
    ensures { IsLongestPart (IsName (option_copied last.entry)) bytes.now result }
{
    let left = text_of(last);
    if !is_at(bytes, 0, b'"') {
        return 0;
    }
    1 + rest_fault(&bytes[1..], left)
}

// The same behind the first quote, where this is left of the last name.
fn rest_fault(bytes: &[u8], left: &[u8]) -> usize
    ensures within { result ≤ length bytes.now }
    ensures fault { (last : Option NameValue) → IsLeftOf last left.now → ¬ (BeginsWith (IsNameRest complete last) bytes.now) → IsLongestPart (IsNameRest complete last) bytes.now result }
{
    let mut left = left;
    let mut at = 0;
    let mut character = COMPLETE;
    loop {
        match next_byte(&bytes[at..], character, left) {
            Some((byte, length, next)) => {
                at += length;
                character = next;
                left = left_behind(left, byte);
            }
            None => return at + most_shared(&bytes[at..], character, left),
        }
    }
}

// The bytes of a name, none without one.
fn text_of(name: Option<&Name>) -> &[u8]
    ensures { IsLeftOf (option_copied name.entry) result.now }
{
    match name {
        Some(name) => name.text().as_bytes(),
        None => b"",
    }
}

// The byte whose spelling stands at the front, the length of that spelling, and the character behind it; none where it
// isn't a next byte, or there is none.
fn next_byte(bytes: &[u8], character: Character, left: &[u8]) -> Option<(u8, usize, Character)>
    ensures { MatchOption result ((b : ℕ) (rest : List ℕ) → IsNext character left.now b → ¬ (bytes.now ≡ spelled_byte b ++ rest)) (λ found. IsStep character left.now bytes.now found.0 found.1 found.2) }
{
    let (byte, length) = byte_at(bytes)?;
    let next = character.next(byte)?;
    if is_least(left, byte) {
        Some((byte, length, next))
    } else {
        None
    }
}

// The most bytes at the front that are those of a next byte's spelling.
fn most_shared(bytes: &[u8], character: Character, left: &[u8]) -> usize
    requires { IsOpen character }
    ensures most { IsMostShared character left.now bytes.now result }
    ensures within { result ≤ length bytes.now }
{
    let mut most = 0;
    for byte in 0..245 {
        if is_next(character, left, byte) {
            most = most.max(shared_spelling(bytes, byte));
        }
    }
    most
}

// Whether a byte may come next.
fn is_next(character: Character, left: &[u8], byte: u8) -> bool
    ensures yes { IsTrue result → IsNext character left.now byte }
    ensures no { IsNext character left.now byte → IsTrue result }
{
    character.next(byte).is_some() && is_least(left, byte)
}

// Whether a byte isn't less than the first of these.
fn is_least(left: &[u8], byte: u8) -> bool
    ensures { IsTrue result ↔ IsLeast left.now byte }
{
    left.is_empty() || left[0] <= byte
}

// What is left of these behind a byte: nothing, unless it is their first.
fn left_behind(left: &[u8], byte: u8) -> &[u8]
    ensures { result.now ≡ left_behind left.now byte }
{
    if left.is_empty() || left[0] != byte {
        return b"";
    }
    &left[1..]
}

// The byte whose spelling stands at the front, and the length of that spelling.
fn byte_at(bytes: &[u8]) -> Option<(u8, usize)>
    ensures { IsByteAt bytes.now result }
{
    match plain_at(bytes) {
        Some(byte) => Some((byte, 1)),
        None => escaped_at(bytes),
    }
}

// The byte at the front, if it stands for itself.
fn plain_at(bytes: &[u8]) -> Option<u8>
    ensures { MatchOption result ((b : ℕ) (rest : List ℕ) → is_plain b ≡ true → ¬ (bytes.now ≡ b ∷ rest)) (λ b. (rest : List ℕ) × (is_plain b ≡ true) × (bytes.now ≡ b ∷ rest)) }
{
    if bytes.is_empty() {
        return None;
    }
    let byte = bytes[0];
    if spell_byte(byte).len() > 1 {
        return None;
    }
    Some(byte)
}

// The byte below 128 whose spelling stands at the front, and the length of that spelling.
fn escaped_at(bytes: &[u8]) -> Option<(u8, usize)>
    ensures { MatchOption result ((b : ℕ) (rest : List ℕ) → b < 128 → ¬ (bytes.now ≡ spelled_byte b ++ rest)) (λ found. (rest : List ℕ) × (found.1 ≡ length (spelled_byte found.0)) × (bytes.now ≡ spelled_byte found.0 ++ rest)) }
{
    for byte in 0..128 {
        let length = spell_byte(byte).len();
        if shared_spelling(bytes, byte) == length {
            return Some((byte, length));
        }
    }
    None
}

// How many bytes at the front are those of a byte's spelling.
fn shared_spelling(bytes: &[u8], byte: u8) -> usize
    ensures { result ≡ shared_of bytes.now (spelled_byte byte) }
{
    shared(bytes, spell_byte(byte).as_slice())
}

// How many of the first bytes are equal.
fn shared(one: &[u8], other: &[u8]) -> usize
    ensures { result ≡ shared_of one.now other.now }
{
    let most = one.len().min(other.len());
    for count in 0..most {
        if one[count] != other[count] {
            return count;
        }
    }
    most
}
