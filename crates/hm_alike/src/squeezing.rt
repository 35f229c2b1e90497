//! Texts without spaces at their ends, and with one for each run of spaces.
ghost use Rattle.std.specs.Prelude.{◌≡◌, ◌==◌, map, IfOk, OnOk, string_bytes};
ghost use Rattle.std.specs.List.{list_any, slice_split};
ghost use Rattle.hm_alike.specs.Alike.{squeezed};
ghost use Rattle.hm_alike.specs.Words.{with_word};

use hm_tree::Memory;
use std::alloc::Global;

/// A text without spaces at its ends, and with one for each run of spaces. One that has no space is kept.
pub fn squeeze(alloc: Global, text: String) -> Result<String, Memory>
    ensures { IfOk result (λ squeezed_text. string_bytes squeezed_text ≡ squeezed (string_bytes text)) }
{
    if has_space(text.as_str()) {
        return squeeze_words(alloc, text.as_str());
    }
    Ok(text)
}

// Whether a text has a space.
fn has_space(text: &str) -> bool
    ensures { result ≡ list_any (λ b. b == 32) text.now }
{
    text.as_bytes().iter().any(|byte| *byte == b' ')
}

// The words of a text, with a space between each two.
fn squeeze_words(alloc: Global, text: &str) -> Result<String, Memory>
    ensures { IfOk result (λ squeezed_text. string_bytes squeezed_text ≡ squeezed text.now) }
{
    let mut squeezed = String::with_capacity(alloc, text.len())?;
    for piece in &pieces(alloc, text)? {
        append_word(&mut squeezed, *piece)?;
    }
    Ok(squeezed)
}

// The pieces of a text between its spaces.
fn pieces<'a>(alloc: Global, text: &'a str) -> Result<Vec<&'a str>, Memory>
    ensures { IfOk result (λ pieces. map (λ p. p.now) pieces.items ≡ slice_split (λ b. b == 32) text.now) }
{
    Ok(text.split(' ').collect(alloc)?)
}

// Puts a word behind a text.
fn append_word(text: &mut String, word: &str) -> Result<(), Memory>
    ensures { OnOk result (string_bytes text.new ≡ with_word (string_bytes text.old) word.now) }
{
    if text.is_empty() {
        text.push_str(word)?;
    } else if !word.is_empty() {
        text.push(' ')?;
        text.push_str(word)?;
    }
    Ok(())
}
