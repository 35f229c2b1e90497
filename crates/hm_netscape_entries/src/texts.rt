//! The texts that titles and addresses spell, and the folder of the bookmarks bar.
ghost use Rattle.std.specs.Prelude.{◌≡◌, IfOk, IsUtf8, codes};
ghost use Rattle.std.specs.Str.{str_eq_ignore_ascii_case};
ghost use Rattle.hm_marks_tokens.specs.Attributes.{value_bytes};
ghost use Rattle.hm_marks_tokens.specs.Lent.{attribute_seen, value_seen};
ghost use Rattle.hm_netscape_entries.specs.Entries as entries;
ghost use Rattle.hm_netscape_entries.specs.Toolbars as toolbars;

use hm_marks_tokens::{Attribute, Value, address, is_literal, next_attribute, unescape};
use hm_tree::{Memory, Name};
use std::alloc::Global;

/// The text that the bytes of a title or an address spell: their entities are read, and that is cleaned.
pub fn text_of(alloc: Global, bytes: &[u8]) -> Result<Name, Memory>
    requires { IsUtf8 bytes.now }
    ensures { IfOk result (λ name. name ≡ entries.text_of bytes.now) }
{
    // Most have no entity.
    if is_literal(bytes) {
        return Name::cleaned_bytes(alloc, bytes);
    }
    let text = unescape(alloc, bytes)?;
    Name::cleaned_bytes(alloc, &text)
}

/// The address that is among attributes; empty where there is none.
pub fn address_in(alloc: Global, attributes: &[u8]) -> Result<Name, Memory>
    requires { IsUtf8 attributes.now }
    ensures { IfOk result (λ name. name ≡ entries.address_in attributes.now) }
{
    match address(attributes) {
        Some(bytes) => text_of(alloc, bytes),
        None => text_of(alloc, b""),
    }
}

/// Whether a folder with these attributes is the bookmarks bar.
pub fn is_toolbar(attributes: &[u8]) -> bool
    ensures { result ≡ toolbars.is_toolbar attributes.now }
{
    let mut rest = attributes;
    while let Some((attribute, behind)) = next_attribute(rest) {
        if is_toolbar_attribute(attribute) {
            return true;
        }
        rest = behind;
    }
    false
}

// Whether an attribute is PERSONAL_TOOLBAR_FOLDER of the value `true`.
fn is_toolbar_attribute(attribute: Attribute<'_>) -> bool
    ensures { result ≡ toolbars.is_toolbar_attribute (attribute_seen attribute.entry) }
{
    attribute
        .name
        .eq_ignore_ascii_case(b"personal_toolbar_folder")
        && is_true(attribute.value)
}

// Whether a value is `true`.
fn is_true(value: Value<'_>) -> bool
    ensures { result ≡ str_eq_ignore_ascii_case (value_bytes (value_seen value.entry)) (codes "true") }
{
    match value {
        Value::Bare => false,
        Value::Quoted(bytes) => bytes.eq_ignore_ascii_case(b"true"),
        Value::Run(bytes) => bytes.eq_ignore_ascii_case(b"true"),
    }
}
