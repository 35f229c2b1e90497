//! Counts, as in `0..1` and `2..`.
ghost use Rattle.std.specs.Prelude.{◌≡◌, IfOk};
ghost use Rattle.std.specs.List.{prefix_len};
ghost use Rattle.hm_schema_lines.specs.Counts.{is_digit, IsReadDecimal, IsReadMost, IsReadCount};

use hm_tree::Memory;
use std::alloc::Global;

/// How many there are at least and at most.
#[derive(Clone, Copy, Drop)]
pub struct Count {
    pub least: u64,
    /// No bound where it is None.
    pub most: Option<u64>,
}

fn is_digit(byte: u8) -> bool
    ensures { result ≡ is_digit byte }
{
    matches!(byte, b'0'..=b'9')
}

// How many digits stand at the front.
fn digits_length(bytes: &[u8]) -> usize
    ensures { result ≡ prefix_len is_digit bytes.now }
{
    bytes.iter().take_while(|byte| is_digit(**byte)).count()
}

// The number whose decimal digits, without leading zeros, the bytes are.
fn read_decimal(alloc: Global, bytes: &[u8]) -> Result<Option<u64>, Memory>
    ensures { IfOk result (IsReadDecimal bytes.now) }
{
    let Ok(text) = std::str::from_utf8(bytes) else {
        return Ok(None);
    };
    let Ok(number) = text.parse::<u64>() else {
        return Ok(None);
    };
    let decimal = format!(in alloc; "{number}")?;
    if decimal.as_str() == text {
        Ok(Some(number))
    } else {
        Ok(None)
    }
}

// The upper bound that the bytes are: none where there are no bytes.
fn read_most(alloc: Global, bytes: &[u8]) -> Result<Option<Option<u64>>, Memory>
    ensures { IfOk result (IsReadMost bytes.now) }
{
    if bytes.is_empty() {
        return Ok(Some(None));
    }
    match read_decimal(alloc, bytes)? {
        Some(most) => Ok(Some(Some(most))),
        None => Ok(None),
    }
}

/// The count that a word is.
pub fn read_count(alloc: Global, word: &[u8]) -> Result<Option<Count>, Memory>
    ensures { IfOk result (IsReadCount word.now) }
{
    let (front, behind) = word.split_at(digits_length(word));
    let Some(rest) = behind.strip_prefix(b"..") else {
        return Ok(None);
    };
    let Some(least) = read_decimal(alloc, front)? else {
        return Ok(None);
    };
    match read_most(alloc, rest)? {
        Some(most) => Ok(Some(Count { least, most })),
        None => Ok(None),
    }
}
