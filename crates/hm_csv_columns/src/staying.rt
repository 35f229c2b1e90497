//! Whether the texts of a field stay.
ghost use Rattle.std.specs.Prelude.{◌≡◌, ◌∷◌, [], cond, true, false, map, length, IsUtf8, IfOk};
ghost use Rattle.hm_tree.specs.Sets.{ascending};
ghost use Rattle.hm_tree.specs.Classes.{is_text};
ghost use Rattle.hm_csv_columns.specs.Fields as spec;

use crate::field::{is_one_piece, texts_shown};
use hm_tree::{Memory, Name, Tree};
use std::alloc::Global;
use std::slice;

/// Whether the texts that a field shows are just the names of some edges, which are not copied.
pub fn shows_names(
    alloc: Global,
    many: bool,
    field: &[u8],
    edges: &[(Name, Tree)],
) -> Result<bool, Memory>
    requires { IsUtf8 field.now }
    ensures { IfOk result (λ same. same ≡ spec.same_names (ascending (spec.texts_shown many field.now)) (map (λ e. e.0) edges.now)) }
{
    if is_one_piece(many, field) {
        shows_one(alloc, field, edges)
    } else {
        shows_many(alloc, field, edges)
    }
}

// The same of a field of many texts.
fn shows_many(alloc: Global, field: &[u8], edges: &[(Name, Tree)]) -> Result<bool, Memory>
    requires { IsUtf8 field.now }
    ensures { IfOk result (λ same. same ≡ spec.same_names (ascending (spec.texts_shown true field.now)) (map (λ e. e.0) edges.now)) }
{
    let texts = texts_shown(alloc, true, field)?;
    Ok(same_names(texts.names(), edges))
}

// The same of a field of one piece, without a set.
fn shows_one(alloc: Global, field: &[u8], edges: &[(Name, Tree)]) -> Result<bool, Memory>
    requires { IsUtf8 field.now }
    ensures { IfOk result (λ same. same ≡ spec.same_names (ascending (spec.texts_shown false field.now)) (map (λ e. e.0) edges.now)) }
{
    let text = Name::cleaned_bytes(alloc, field)?;
    Ok(same_names(as_texts(&text), edges))
}

// The list of a text, or of none where it's of spaces alone.
fn as_texts(text: &Name) -> &[Name]
    ensures { result.now ≡ cond (is_text text.now) (text.now ∷ []) [] }
{
    if text.is_text() {
        slice::from_ref(text)
    } else {
        &[]
    }
}

// Whether names are just those of edges.
fn same_names(names: &[Name], edges: &[(Name, Tree)]) -> bool
    ensures { result ≡ spec.same_names names.now (map (λ e. e.0) edges.now) }
{
    if names.len() != edges.len() {
        return false;
    }
    same_each(names, edges)
}

// The same of lists of one length.
fn same_each(names: &[Name], edges: &[(Name, Tree)]) -> bool
    requires { length names.now ≡ length edges.now }
    ensures { result ≡ spec.same_names names.now (map (λ e. e.0) edges.now) }
{
    for place in 0..names.len() {
        if !names[place].same(&edges[place].0) {
            return false;
        }
    }
    true
}
