//! Names and paths as they are spelled.
ghost use Rattle.std.specs.Prelude.{◌≡◌, ◌+◌, ◌<◌, ◌++◌, List, ℕ, length, take, IfOk, OnOk, OnErr, is_ok, if◌then◌else◌};
ghost use Rattle.hm_tree_spelling.specs.Spelling.{spelled_byte, spelled, path_text};
ghost use Rattle.std.specs.Char.{digit_char};

use crate::plain::{is_control, is_quote_or_backslash, plain_len};
use arrayvec::ArrayVec;
use hm_tree::{Memory, Name, Path};
use std::alloc::Global;

/// How a name is spelled.
pub fn spell_name(alloc: Global, name: &Name) -> Result<Vec<u8>, Memory>
    ensures { IfOk result (λ bytes. bytes.items ≡ spelled name.now) }
{
    let mut out = Vec::new(alloc);
    append_spelled(name, &mut out)?;
    Ok(out)
}

/// Appends how a name is spelled.
pub fn append_spelled(name: &Name, out: &mut Vec<u8>) -> Result<(), Memory>
    ensures ok { OnOk result (out.new.items ≡ out.old.items ++ spelled name.now) }
    ensures err { OnErr result (out.new.items ≡ out.old.items) }
{
    let start = out.len();
    let appended = append_pieces(name.bytes(), out);
    if appended.is_err() {
        out.truncate(start);
    }
    appended
}

/// Appends how a path is spelled: a stroke for the root, else one before the spelling of each name.
pub fn append_path(path: &Path, out: &mut Vec<u8>) -> Result<(), Memory>
    ensures ok { OnOk result (out.new.items ≡ out.old.items ++ path_text path.now) }
    ensures err { OnErr result (out.new.items ≡ out.old.items) }
{
    let start = out.len();
    let appended = append_steps(path, out);
    if appended.is_err() {
        out.truncate(start);
    }
    appended
}

// Appends a path name by name; without memory for one of them the names before it stay.
fn append_steps(path: &Path, out: &mut Vec<u8>) -> Result<(), Memory>
    ensures ok { OnOk result (out.new.items ≡ out.old.items ++ path_text path.now) }
    ensures kept { (rest : List ℕ) × (out.new.items ≡ out.old.items ++ rest) }
{
    if path.names.is_empty() {
        out.push(b'/')?;
        return Ok(());
    }
    for name in &path.names {
        out.push(b'/')?;
        append_spelled(name, out)?;
    }
    Ok(())
}

// Appends a spelling piece by piece; without memory for one of them the pieces before it stay.
fn append_pieces(bytes: &[u8], out: &mut Vec<u8>) -> Result<(), Memory>
    ensures ok { OnOk result (out.new.items ≡ out.old.items ++ spelled bytes.now) }
    ensures kept { (rest : List ℕ) × (out.new.items ≡ out.old.items ++ rest) }
{
    out.push(b'"')?;
    let plain = plain_len(bytes);
    out.extend_from_slice(&bytes[..plain])?;
    for byte in &bytes[plain..] {
        append_byte(*byte, out)?;
    }
    out.push(b'"')?;
    Ok(())
}

// Appends how one byte is spelled.
fn append_byte(byte: u8, out: &mut Vec<u8>) -> Result<(), Memory>
    ensures { out.new.items ≡ (if is_ok result then out.old.items ++ spelled_byte byte else out.old.items) }
{
    out.extend_from_slice(spell_byte(byte).as_slice())?;
    Ok(())
}

/// How one byte of a name is spelled: as itself, unless it is a quote, a backslash or a control character of ASCII. It
/// takes no memory.
pub fn spell_byte(byte: u8) -> ArrayVec<u8, 4>
    ensures { result.items ≡ spelled_byte byte }
{
    let mut spelled = ArrayVec::new();
    if is_quote_or_backslash(byte) {
        spelled.push(b'\\');
        spelled.push(byte);
    } else if is_control(byte) {
        spelled.push(b'\\');
        spelled.push(b'x');
        spelled.push(hexadecimal(byte / 16));
        spelled.push(hexadecimal(byte % 16));
    } else {
        spelled.push(byte);
    }
    spelled
}

// The lower-case hexadecimal digit of a number below 16.
fn hexadecimal(digit: u8) -> u8
    requires { digit < 16 }
    ensures { result ≡ digit_char digit }
{
    if digit < 10 {
        b'0' + digit
    } else {
        b'a' + (digit - 10)
    }
}
