//! Values of the type text: escapes (RFC 5545, section 3.3.11; RFC 6350, section 3.4).
ghost use Rattle.std.specs.Prelude.{◌≡◌, ◌<◌, ◌++◌, IsUtf8, IfOk, OnOk, Some, length};
ghost use Rattle.memchr.specs.Find.{IsFirstByte, is_byte};
ghost use Rattle.hm_tree.specs.Classes.{IsClean};
ghost use Rattle.hm_lines.specs.Values.{backslash, is_special, is_escape, meaning, text_of, unescaped, escaped, escaped_byte};

use hm_tree::{Memory, Name};
use memchr::memchr;
use std::alloc::Global;

/// The bytes of a value that has a text: `\`, `,` and `;` stand behind a `\`, and a line feed is `\n`. Its text is what
/// was escaped, where that is clean.
pub fn escape(alloc: Global, text: &Name) -> Result<Vec<u8>, Memory>
    ensures value { IfOk result (λ value. value.items ≡ escaped text.now) }
    ensures utf8 { IfOk result (λ value. IsUtf8 value.items) }
    ensures again { IfOk result (λ value. IsClean text.now → text_of value.items ≡ text.now) }
{
    let bytes = text.bytes();
    let mut value = Vec::with_capacity(alloc, bytes.len())?;
    for byte in bytes {
        append_escaped(&mut value, *byte)?;
    }
    Ok(value)
}

/// The text of a value, cleaned: `\\`, `\,` and `\;` stand for the second character, `\n` and `\N` for a line feed, and
/// another `\` for itself.
pub fn unescape(alloc: Global, value: &str) -> Result<Name, Memory>
    ensures { IfOk result (λ text. text ≡ text_of value.now) }
{
    if memchr(b'\\', value.as_bytes()).is_none() {
        return Name::cleaned(alloc, value);
    }
    match String::from_utf8(unescape_bytes(alloc, value.as_bytes())?) {
        Ok(text) => Name::cleaned(alloc, &text),
        Err(_) => unreachable!(),
    }
}

// The bytes that the bytes of a value stand for.
fn unescape_bytes(alloc: Global, value: &[u8]) -> Result<Vec<u8>, Memory>
    ensures { IfOk result (λ text. text.items ≡ unescaped value.now) }
{
    let mut text = Vec::with_capacity(alloc, value.len())?;
    let mut rest = value;
    while let Some(at) = memchr(b'\\', rest) {
        rest = take_backslash(&mut text, rest, at)?;
    }
    text.extend_from_slice(rest)?;
    Ok(text)
}

// Reads up to the first `\`, and the byte behind it if the two stand for one; gives what is left.
fn take_backslash<'a>(text: &mut Vec<u8>, rest: &'a [u8], at: usize) -> Result<&'a [u8], Memory>
    requires { IsFirstByte (is_byte backslash) rest.now (Some at) }
    ensures unescaped { IfOk result (λ left. text.new.items ++ unescaped left.now ≡ text.old.items ++ unescaped rest.now) }
    ensures shorter { IfOk result (λ left. length left.now < length rest.now) }
{
    let (front, behind) = rest.split_at(at);
    text.extend_from_slice(front)?;
    match behind.get(1) {
        Some(byte) if is_escape(*byte) => {
            text.push(meaning(*byte))?;
            Ok(&behind[2..])
        }
        _ => {
            text.push(b'\\')?;
            Ok(&behind[1..])
        }
    }
}

// Whether a byte stands behind a `\` for itself.
fn is_special(byte: u8) -> bool
    ensures { result ≡ is_special byte }
{
    matches!(byte, b'\\' | b',' | b';')
}

// Whether a byte stands for something behind a `\`.
fn is_escape(byte: u8) -> bool
    ensures { result ≡ is_escape byte }
{
    is_special(byte) || matches!(byte, b'n' | b'N')
}

// What such a byte stands for.
fn meaning(byte: u8) -> u8
    ensures { result ≡ meaning byte }
{
    if is_special(byte) { byte } else { b'\n' }
}

// Puts the spelling of a byte behind some bytes.
fn append_escaped(value: &mut Vec<u8>, byte: u8) -> Result<(), Memory>
    ensures { OnOk result (value.new.items ≡ value.old.items ++ escaped_byte byte) }
{
    match byte {
        b'\n' => Ok(value.extend_from_slice(b"\\n")?),
        b'\\' | b',' | b';' => Ok(value.extend_from_slice(&[b'\\', byte])?),
        _ => Ok(value.push(byte)?),
    }
}
