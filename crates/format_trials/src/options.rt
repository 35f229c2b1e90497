//! Formats and their options, as a lens file has them.
ghost use Rattle.std.specs.Prelude.{◌≤◌, IfOk, length};
ghost use Rattle.hm_schema.specs.Values.{options_value};
ghost use Rattle.hm_format.specs.Options.{AreSound};

use hm_focal::{LensFault, read_lens};
use hm_format::values_are_texts;
use hm_schema::Options;
use hm_tree::{Memory, Name};
use std::alloc::Global;

/// How many of the first words have a `=`: they are options, and the others are files.
pub fn count_options(words: &[Name]) -> usize
    ensures { result ≤ length words.now }
{
    for place in 0..words.len() {
        if !words[place].text().contains('=') {
            return place;
        }
    }
    words.len()
}

/// The options of a format that these words are in the line of a lens file, which declares nodes by these lines.
pub fn read_options(
    alloc: Global,
    format: &str,
    words: &[Name],
    nodes: &[u8],
) -> Result<Options, LensFault>
    ensures { IfOk result (λ options. AreSound (options_value options)) }
{
    let text = lens_text(alloc, format, words, nodes)?;
    let program = read_lens(alloc, &text)?;
    values_are_texts(&program.options.pairs);
    Ok(program.options)
}

// The lens file of these words.
fn lens_text(alloc: Global, format: &str, words: &[Name], nodes: &[u8]) -> Result<Vec<u8>, Memory> {
    let mut text = Vec::from_slice(alloc, b"harmony lens 1\nformat ")?;
    text.extend_from_slice(format.as_bytes())?;
    append_words(&mut text, words)?;
    text.push(b'\n')?;
    text.extend_from_slice(nodes)?;
    text.extend_from_slice(b"main = id\n")?;
    Ok(text)
}

// A space before each of some words.
fn append_words(text: &mut Vec<u8>, words: &[Name]) -> Result<(), Memory> {
    for word in words {
        text.push(b' ')?;
        text.extend_from_slice(word.bytes())?;
    }
    Ok(())
}
