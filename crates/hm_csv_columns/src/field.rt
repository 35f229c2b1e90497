//! Single fields.
ghost use Rattle.std.specs.Prelude.{◌≡◌, ◌||◌, true, false, not, IsUtf8, IfOk};
ghost use Rattle.std.specs.List.{list_any};
ghost use Rattle.hm_tree.specs.Sets.{ascending};
ghost use Rattle.hm_csv_fields.specs.Pieces.{is_special};
ghost use Rattle.hm_csv_columns.specs.Fields as spec;

use hm_csv_fields::{has_special, texts};
use hm_tree::{Memory, Name, NameSet};
use std::alloc::Global;

/// The texts that a field shows.
pub fn texts_shown(alloc: Global, many: bool, field: &[u8]) -> Result<NameSet, Memory>
    requires { IsUtf8 field.now }
    ensures { IfOk result (λ set. set ≡ spec.texts_shown many field.now) }
{
    if is_one_piece(many, field) {
        return one_text(alloc, field);
    }
    texts_of_pieces(alloc, field)
}

/// Whether a field is one piece, so that it shows one text at the most. Most fields are, also where a column may show many
/// texts.
pub(crate) fn is_one_piece(many: bool, field: &[u8]) -> bool
    ensures { result ≡ (not many || not (list_any is_special field.now)) }
{
    !many || !has_special(field)
}

// The texts of the pieces of a field.
fn texts_of_pieces(alloc: Global, field: &[u8]) -> Result<NameSet, Memory>
    requires { IsUtf8 field.now }
    ensures { IfOk result (λ set. set ≡ spec.texts_shown true field.now) }
{
    match std::str::from_utf8(field) {
        Ok(field) => texts(alloc, field),
        Err(_) => unreachable!(),
    }
}

// The one text of a field, where it isn't of spaces alone.
fn one_text(alloc: Global, field: &[u8]) -> Result<NameSet, Memory>
    requires { IsUtf8 field.now }
    ensures { IfOk result (λ set. set ≡ spec.texts_shown false field.now) }
{
    let text = Name::cleaned_bytes(alloc, field)?;
    let mut texts = Vec::new(alloc);
    if text.is_text() {
        texts.push(text)?;
    }
    NameSet::from_list(texts)
}

/// The field that is made anew to show a set of texts.
pub fn made(alloc: Global, many: bool, field: &[u8], set: &NameSet) -> Result<Vec<u8>, Memory>
    requires { IsUtf8 field.now }
    ensures { IfOk result (λ new. new.items ≡ spec.made many field.now set.now) }
{
    if !many {
        return one_field(alloc, set);
    }
    match std::str::from_utf8(field) {
        Ok(field) => hm_csv_fields::rewrite(alloc, field, set),
        Err(_) => unreachable!(),
    }
}

// The field of the first text of a set.
fn one_field(alloc: Global, set: &NameSet) -> Result<Vec<u8>, Memory>
    ensures { IfOk result (λ text. text.items ≡ spec.first_of (ascending set.now)) }
{
    first_text(alloc, set.names())
}

// The bytes of the first of some names; none where there is no name.
fn first_text(alloc: Global, names: &[Name]) -> Result<Vec<u8>, Memory>
    ensures { IfOk result (λ text. text.items ≡ spec.first_of names.now) }
{
    let mut text = Vec::new(alloc);
    if let Some(name) = names.first() {
        text.extend_from_slice(name.bytes())?;
    }
    Ok(text)
}
