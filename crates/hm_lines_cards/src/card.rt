//! The card that lines show.
ghost use Rattle.std.specs.Prelude.{◌≡◌, IfOk, T, slice_get};
ghost use Rattle.hm_tree.specs.Nodes.{are_edges};
ghost use Rattle.hm_lines_cards.specs.Lines as spec;
ghost use Rattle.hm_lines_cards.specs.Lent.{AreLines, lent};

use crate::line::{Line, text_shown};
use hm_book_cards::card_tree;
use hm_tree::{Memory, Name, NameSet, Tree};
use std::alloc::Global;

/// The card that the lines of an item show by properties whose names rise, each with whether it may have many texts.
pub fn card_of(alloc: Global, properties: &[(Name, bool)], lines: &[Line]) -> Result<Tree, Memory>
    requires names { T (are_edges properties.now) }
    requires lines { AreLines lines.now }
    ensures { IfOk result (λ card. card ≡ spec.card_of properties.now (lent lines.now)) }
{
    card_tree(alloc, texts_by(alloc, properties, lines)?)
}

// The texts of lines below the names of properties.
fn texts_by(
    alloc: Global,
    properties: &[(Name, bool)],
    lines: &[Line],
) -> Result<Vec<(Name, NameSet)>, Memory>
    requires { AreLines lines.now }
    ensures { IfOk result (λ texts. texts.items ≡ spec.texts_by properties.now (lent lines.now)) }
{
    let mut texts = Vec::with_capacity(alloc, properties.len())?;
    for property in properties {
        texts.push((property.0.copy()?, set_of(alloc, &property.0, lines)?))?;
    }
    Ok(texts)
}

/// The text of the first line that shows one below a name, as the key of an item is; none where no line does.
pub fn key_of(alloc: Global, name: &Name, lines: &[Line]) -> Result<Option<Name>, Memory>
    requires { AreLines lines.now }
    ensures { IfOk result (λ key. key ≡ slice_get (spec.texts_of name.now (lent lines.now)) 0) }
{
    for line in lines {
        if let Some(text) = text_shown(alloc, name, line)? {
            return Ok(Some(text));
        }
    }
    Ok(None)
}

/// The set of the texts that lines show below the name of a property.
pub fn set_of(alloc: Global, name: &Name, lines: &[Line]) -> Result<NameSet, Memory>
    requires { AreLines lines.now }
    ensures { IfOk result (λ set. set ≡ spec.set_of name.now (lent lines.now)) }
{
    NameSet::from_list(texts_of(alloc, name, lines)?)
}

// These texts, in the order of the lines.
fn texts_of(alloc: Global, name: &Name, lines: &[Line]) -> Result<Vec<Name>, Memory>
    requires { AreLines lines.now }
    ensures { IfOk result (λ texts. texts.items ≡ spec.texts_of name.now (lent lines.now)) }
{
    let mut texts = Vec::new(alloc);
    for line in lines {
        if let Some(text) = text_shown(alloc, name, line)? {
            texts.push(text)?;
        }
    }
    Ok(texts)
}
