//! The texts that a field shows, and the field that is made anew for others.
ghost use Rattle.std.specs.Prelude.{◌≡◌, ◌++◌, All, IsUtf8, IfOk, OnOk, map, filter, not};
ghost use Rattle.hm_tree.specs.Cleaned.{cleaned};
ghost use Rattle.std.specs.FinSet.{from_list};
ghost use Rattle.hm_csv_fields.specs.Pieces.{written};
ghost use Rattle.hm_csv_fields.specs.Cutting.{bytes_of, lent, AreLentUtf8};
ghost use Rattle.hm_tree.specs.Classes.{is_text};
ghost use Rattle.hm_csv_fields.specs.Texts.{is_shown, shown as shown_of, texts as texts_in, stays, new_pieces, AreFilled};
ghost use Rattle.hm_tree.specs.Sets.{new_names};

use crate::cutting::pieces;
use crate::writing::write_pieces;
use hm_tree::{Memory, Name, NameSet};
use std::alloc::Global;

/// The set of the texts that a field shows.
pub fn texts(alloc: Global, field: &str) -> Result<NameSet, Memory>
    ensures { IfOk result (λ set. set ≡ texts_in field.now) }
{
    let pieces = pieces(alloc, field)?;
    Ok(NameSet::from_list(shown(alloc, &pieces)?)?)
}

/// The bytes of a field that is to show another set of texts: the pieces that stay, in their order, and then the texts that
/// are new, in the order of their bytes. It shows that set where its texts can be shown, which are clean and not of spaces
/// alone.
pub fn rewrite(alloc: Global, field: &str, set: &NameSet) -> Result<Vec<u8>, Memory>
    ensures made { IfOk result (λ made. made.items ≡ written (new_pieces field.now set.now)) }
    ensures shows { AreFilled set.now → IfOk result (λ made. texts_in made.items ≡ set.now) }
    ensures utf8 { IfOk result (λ made. IsUtf8 made.items) }
{
    let pieces = pieces(alloc, field)?;
    let old = NameSet::from_list(shown(alloc, &pieces)?)?;
    let mut new = Vec::new(alloc);
    append_staying(alloc, &mut new, &pieces, set)?;
    append_new(&mut new, &old, set)?;
    write_pieces(alloc, &new)
}

// The texts that pieces show.
fn shown(alloc: Global, pieces: &[Vec<u8>]) -> Result<Vec<Name>, Memory>
    requires { All (λ p. IsUtf8 p.items) pieces.now }
    ensures { IfOk result (λ texts. texts.items ≡ shown_of (map bytes_of pieces.now)) }
{
    let mut texts = Vec::new(alloc);
    for piece in pieces {
        let text = Name::cleaned_bytes(alloc, piece)?;
        if text.is_text() {
            texts.push(text)?;
        }
    }
    Ok(texts)
}

// Whether a piece stays where a field is to show a set of texts.
fn stays(alloc: Global, set: &NameSet, piece: &[u8]) -> Result<bool, Memory>
    requires { IsUtf8 piece.now }
    ensures { IfOk result (λ yes. yes ≡ stays set.now piece.now) }
{
    let text = Name::cleaned_bytes(alloc, piece)?;
    Ok(!text.is_text() || set.has(&text))
}

// Puts the pieces that stay behind others.
fn append_staying<'a>(
    alloc: Global,
    new: &mut Vec<&'a [u8]>,
    pieces: &'a [Vec<u8>],
    set: &NameSet,
) -> Result<(), Memory>
    requires pieces { All (λ p. IsUtf8 p.items) pieces.now }
    requires utf8 { AreLentUtf8 new.old.items }
    ensures staying { OnOk result (lent new.new.items ≡ lent new.old.items ++ filter (stays set.now) (map bytes_of pieces.now)) }
    ensures utf8 { OnOk result (AreLentUtf8 new.new.items) }
{
    for piece in pieces {
        if stays(alloc, set, piece)? {
            new.push(piece)?;
        }
    }
    Ok(())
}

// Puts the names of a set that aren't in another one behind some pieces.
fn append_new<'a>(new: &mut Vec<&'a [u8]>, old: &NameSet, set: &'a NameSet) -> Result<(), Memory>
    requires utf8 { AreLentUtf8 new.old.items }
    ensures new { OnOk result (lent new.new.items ≡ lent new.old.items ++ new_names old.now set.now) }
    ensures utf8 { OnOk result (AreLentUtf8 new.new.items) }
{
    for name in set.names() {
        if !old.has(name) {
            new.push(name.bytes())?;
        }
    }
    Ok(())
}
