//! Characters that are spelled by entities (WHATWG HTML, section 13.1.4).
ghost use Rattle.std.specs.Prelude.{◌≡◌, ◌↔◌, ◌++◌, ◌+◌, ◌<◌, ◌≤◌, IfOk, IfSome, IsTrue, IsUtf8, OnOk, length, false, true};
ghost use Rattle.std.specs.Option.{option_map};
ghost use Rattle.std.specs.Char.{encode_utf8, is_ascii_digit};
ghost use Rattle.std.specs.List.{list_all, prefix_len};
ghost use Rattle.hm_marks_tokens.specs.Entities.{has_ampersand, decimal_behind, number_at, entity_at, read_byte, unescaped, escaped_byte, escaped, IsPlain};

use hm_tree::Memory;
use memchr::memchr;
use std::alloc::Global;

/// Bytes with entities in place of `&`, `<`, `>` and `"`: they may stand in a title and between the quotes of an attribute,
/// and are read as what they were.
pub fn escape(alloc: Global, bytes: &[u8]) -> Result<Vec<u8>, Memory>
    ensures value { IfOk result (λ made. made.items ≡ escaped bytes.now) }
    ensures plain { IfOk result (λ made. IsPlain made.items) }
    ensures again { IfOk result (λ made. unescaped made.items ≡ bytes.now) }
    ensures utf8 { IsUtf8 bytes.now → IfOk result (λ made. IsUtf8 made.items) }
{
    let mut made = Vec::with_capacity(alloc, bytes.len())?;
    add_escaped(&mut made, bytes)?;
    Ok(made)
}

/// Puts bytes behind others, with entities in place of `&`, `<`, `>` and `"`.
pub fn add_escaped(out: &mut Vec<u8>, bytes: &[u8]) -> Result<(), Memory>
    ensures { OnOk result (out.new.items ≡ out.old.items ++ escaped bytes.now) }
{
    for byte in bytes {
        add_byte(out, *byte)?;
    }
    Ok(())
}

// Puts a byte behind others as it is written.
fn add_byte(out: &mut Vec<u8>, byte: u8) -> Result<(), Memory>
    ensures { OnOk result (out.new.items ≡ out.old.items ++ escaped_byte byte) }
{
    match byte {
        b'&' => Ok(out.extend_from_slice(b"&amp;")?),
        b'<' => Ok(out.extend_from_slice(b"&lt;")?),
        b'>' => Ok(out.extend_from_slice(b"&gt;")?),
        b'"' => Ok(out.extend_from_slice(b"&quot;")?),
        _ => Ok(out.push(byte)?),
    }
}

/// Bytes with their entities read: `&amp;`, `&lt;`, `&gt;`, `&quot;`, and `&#N;` where `N` is of one to seven digits and the
/// number of a character, which is put in UTF-8. Each other `&` stays.
pub fn unescape(alloc: Global, bytes: &[u8]) -> Result<Vec<u8>, Memory>
    ensures value { IfOk result (λ made. made.items ≡ unescaped bytes.now) }
    ensures utf8 { IsUtf8 bytes.now → IfOk result (λ made. IsUtf8 made.items) }
{
    let mut made = Vec::with_capacity(alloc, bytes.len())?;
    let mut rest = bytes;
    while let Some((byte, behind)) = rest.split_first() {
        let skipped = append_read(&mut made, *byte, behind)?;
        rest = behind.split_at(skipped).1;
    }
    Ok(made)
}

/// Whether bytes have no `&`. Then they are read as they are.
pub fn is_literal(bytes: &[u8]) -> bool
    ensures ampersand { IsTrue result ↔ (has_ampersand bytes.now ≡ false) }
    ensures read { IsTrue result → unescaped bytes.now ≡ bytes.now }
{
    match memchr(b'&', bytes) {
        Some(_) => false,
        None => true,
    }
}

// Puts behind others what a byte is read as, by those behind it; gives how many of these are read with it.
fn append_read(out: &mut Vec<u8>, byte: u8, behind: &[u8]) -> Result<usize, Memory>
    ensures read { IfOk result (λ skipped. (out.new.items ≡ out.old.items ++ (read_byte byte behind.now).0) × (skipped ≡ (read_byte byte behind.now).1)) }
    ensures within { IfOk result (λ skipped. skipped ≤ length behind.now) }
{
    if byte == b'&' {
        if let Some((character, len)) = entity(behind) {
            out.extend_from_slice(character.encode_utf8(&mut [0; 4]).as_bytes())?;
            return Ok(len);
        }
    }
    out.push(byte)?;
    Ok(0)
}

// The character of the entity whose `&` stands before bytes, and how many bytes it has there.
fn entity(behind: &[u8]) -> Option<(char, usize)>
    ensures entity { option_map (λ found. (encode_utf8 found.0, found.1)) result ≡ entity_at behind.now }
    ensures within { IfSome result (λ found. found.1 ≤ length behind.now) }
{
    if behind.starts_with(b"amp;") {
        return Some(('&', 4));
    }
    if behind.starts_with(b"lt;") {
        return Some(('<', 3));
    }
    if behind.starts_with(b"gt;") {
        return Some(('>', 3));
    }
    if behind.starts_with(b"quot;") {
        return Some(('"', 5));
    }
    match behind.split_first() {
        Some((b'#', rest)) => numbered(rest),
        _ => None,
    }
}

// The character of a number behind `&#`, and how many bytes there are from `#` to `;`.
fn numbered(rest: &[u8]) -> Option<(char, usize)>
    ensures entity { option_map (λ found. (encode_utf8 found.0, found.1)) result ≡ number_at rest.now }
    ensures within { IfSome result (λ found. found.1 ≤ length rest.now + 1) }
{
    let count = digits(rest);
    if count == 0 || count > 7 || rest.get(count) != Some(&b';') {
        return None;
    }
    let character = char::from_u32(decimal(&rest[..count]))?;
    Some((character, count + 2))
}

// How many digits bytes begin with.
fn digits(bytes: &[u8]) -> usize
    ensures { result ≡ prefix_len is_ascii_digit bytes.now }
{
    for place in 0..bytes.len() {
        if !bytes[place].is_ascii_digit() {
            return place;
        }
    }
    bytes.len()
}

// The number of at most seven digits.
fn decimal(digits: &[u8]) -> u32
    requires few { length digits.now < 8 }
    requires digits { list_all is_ascii_digit digits.now ≡ true }
    ensures { result ≡ decimal_behind 0 digits.now }
{
    let mut number: u32 = 0;
    for place in 0..digits.len() {
        number = number * 10 + (digits[place] - b'0') as u32;
    }
    number
}
