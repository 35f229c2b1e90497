//! The attributes of a tag.
ghost use Rattle.std.specs.Prelude.{◌≡◌, ◌==◌, ◌<◌, ◌≤◌, ◌↔◌, not, length, option_map, ℕ, List, IsTrue, IfSome, MatchOption};
ghost use Rattle.hm_marks_tokens.specs.Attributes.{is_of_name, is_of_run, white_len, word_len, run_len, quoted_at, value_behind, value_at, attribute_at, attributes_of, address_of, are_attributes, is_address, value_bytes, Attribute as SeenAttribute, AreAttributes, IsFirst};
ghost use Rattle.hm_marks_tokens.specs.Lent.{value_seen, attribute_seen, found_value, found_attribute};

use crate::bytes::{begins_white, is_white, len_before};

/// What stands behind the name of an attribute.
#[derive(Clone, Copy, Debug)]
pub enum Value<'a> {
    /// Nothing.
    Bare,
    /// What stands between `="` and `"`.
    Quoted(&'a [u8]),
    /// What stands behind `=`, up to white space.
    Run(&'a [u8]),
}

/// An attribute, with the white space before it.
#[derive(Clone, Copy, Debug)]
pub struct Attribute<'a> {
    /// The white space before it.
    pub blank: &'a [u8],
    /// Its name.
    pub name: &'a [u8],
    /// Its value.
    pub value: Value<'a>,
}

/// Whether bytes are attributes, with white space or nothing behind them.
pub fn are_attributes(bytes: &[u8]) -> bool
    ensures value { result ≡ are_attributes bytes.now }
    ensures grammar { IsTrue result ↔ ((attributes : List SeenAttribute) × (ending : List ℕ) × AreAttributes bytes.now attributes ending) }
{
    is_white(behind_attributes(bytes))
}

/// The first address of attributes: what the first `HREF` has as its value, with its entities; none without an `HREF`.
pub fn address(bytes: &[u8]) -> Option<&[u8]>
    ensures { option_map (λ found. found.now) result ≡ address_of bytes.now }
{
    let mut rest = bytes;
    while let Some((attribute, behind)) = next_attribute(rest) {
        if is_address(attribute) {
            return Some(value_bytes(attribute.value));
        }
        rest = behind;
    }
    None
}

/// The attribute that bytes begin with, and what stands behind it; none where they begin with none, or with one that goes on
/// without white space.
pub fn next_attribute(bytes: &[u8]) -> Option<(Attribute<'_>, &[u8])>
    ensures attribute { MatchOption result ((attribute : SeenAttribute) (rest : List ℕ) → IsFirst bytes.now attribute rest → ⊥) (λ found. IsFirst bytes.now (attribute_seen found.0) found.1.now) }
    ensures shorter { IfSome result (λ found. length found.1.now < length bytes.now) }
{
    attribute_at(bytes)
}

// What stands behind the attributes that bytes begin with.
fn behind_attributes(bytes: &[u8]) -> &[u8]
    ensures { result.now ≡ (attributes_of bytes.now).1 }
{
    let mut rest = bytes;
    while let Some((_, behind)) = next_attribute(rest) {
        rest = behind;
    }
    rest
}

// Whether an attribute is an `HREF`.
pub(crate) fn is_address(attribute: Attribute<'_>) -> bool
    ensures { result ≡ is_address (attribute_seen attribute.entry) }
{
    attribute.name.eq_ignore_ascii_case(b"href")
}

// A value without `=` and quotes.
fn value_bytes(value: Value<'_>) -> &[u8]
    ensures { result.now ≡ value_bytes (value_seen value.entry) }
{
    match value {
        Value::Bare => b"",
        Value::Quoted(bytes) => bytes,
        Value::Run(bytes) => bytes,
    }
}

// The attribute that bytes begin with, and what stands behind it.
fn attribute_at(bytes: &[u8]) -> Option<(Attribute<'_>, &[u8])>
    ensures { option_map found_attribute result ≡ attribute_at bytes.now }
{
    let (blank, behind) = bytes.split_at(white_len(bytes));
    if blank.is_empty() {
        return None;
    }
    let (name, rest) = behind.split_at(word_len(behind));
    if name.is_empty() {
        return None;
    }
    let (value, rest) = value_at(rest)?;
    if !begins_white(rest) {
        return None;
    }
    Some((Attribute { blank, name, value }, rest))
}

// The value behind a name, and what stands behind it.
fn value_at(bytes: &[u8]) -> Option<(Value<'_>, &[u8])>
    ensures { option_map found_value result ≡ value_at bytes.now }
{
    let Some((first, behind)) = bytes.split_first() else {
        return Some((Value::Bare, bytes));
    };
    if *first == b'=' {
        value_behind(behind)
    } else {
        Some((Value::Bare, bytes))
    }
}

// The same behind `=`.
fn value_behind(bytes: &[u8]) -> Option<(Value<'_>, &[u8])>
    ensures { option_map found_value result ≡ value_behind bytes.now }
{
    let Some((first, behind)) = bytes.split_first() else {
        return Some((Value::Run(bytes), bytes));
    };
    if *first == b'"' {
        return quoted_at(behind);
    }
    let (run, rest) = bytes.split_at(run_len(bytes));
    Some((Value::Run(run), rest))
}

// The same behind `="`.
fn quoted_at(bytes: &[u8]) -> Option<(Value<'_>, &[u8])>
    ensures { option_map found_value result ≡ quoted_at bytes.now }
{
    let len = len_before(b'"', bytes);
    if len >= bytes.len() {
        return None;
    }
    Some((Value::Quoted(&bytes[..len]), &bytes[len + 1..]))
}

// How many bytes of white space bytes begin with.
fn white_len(bytes: &[u8]) -> usize
    ensures len { result ≡ white_len bytes.now }
    ensures within { result ≤ length bytes.now }
{
    for place in 0..bytes.len() {
        if !bytes[place].is_ascii_whitespace() {
            return place;
        }
    }
    bytes.len()
}

// How long a name is that bytes begin with.
fn word_len(bytes: &[u8]) -> usize
    ensures len { result ≡ word_len bytes.now }
    ensures within { result ≤ length bytes.now }
{
    for place in 0..bytes.len() {
        if !is_of_name(bytes[place]) {
            return place;
        }
    }
    bytes.len()
}

// How long a run is that bytes begin with.
fn run_len(bytes: &[u8]) -> usize
    ensures len { result ≡ run_len bytes.now }
    ensures within { result ≤ length bytes.now }
{
    for place in 0..bytes.len() {
        if !is_of_run(bytes[place]) {
            return place;
        }
    }
    bytes.len()
}

// Whether a byte is a letter or a digit of ASCII, `_` or `-`.
fn is_of_name(byte: u8) -> bool
    ensures { result ≡ is_of_name byte }
{
    byte.is_ascii_alphanumeric() || byte == b'_' || byte == b'-'
}

// Whether a byte is neither white space, `"` nor `>`.
fn is_of_run(byte: u8) -> bool
    ensures { result ≡ is_of_run byte }
{
    !byte.is_ascii_whitespace() && byte != b'"' && byte != b'>'
}
