//! The format line: the name of a format, and its options.
ghost use Rattle.std.specs.Prelude.{IfOk, MatchOption, List, ℕ, codes};
ghost use Rattle.hm_schema.specs.Values.{pair_value};
ghost use Rattle.hm_focal.specs.Front.{IsWordBefore, IsReadFront};
ghost use Rattle.hm_focal.specs.OwnLines.{names_value, AreEdges, IsPair, IsOption, AreReadOptions, IsReadFormat};

use crate::front::{behind_gap, behind_sign, front_edge, front_word, word_before};
use crate::own::FormatLine;
use hm_schema_lines::is_word;
use hm_tree::{Memory, Name};
use std::alloc::Global;

// Names of edges with commas between, and what stands behind them.
fn read_edges<'a>(alloc: Global, bytes: &'a [u8]) -> Result<Option<(Vec<Name>, &'a [u8])>, Memory>
    ensures { IfOk result (IsReadFront names_value (AreEdges bytes.now)) }
{
    let mut names = Vec::new(alloc);
    let mut rest = bytes;
    loop {
        let Some((name, behind)) = front_edge(alloc, rest)? else {
            return Ok(None);
        };
        names.push(name)?;
        match behind_sign(behind, b',') {
            Some(next) => rest = next,
            None => return Ok(Some((names, behind))),
        }
    }
}

// What stands behind the spaces at the front: a word, `=`, and names of edges.
fn read_pair<'a>(
    alloc: Global,
    text: &'a [u8],
) -> Result<Option<((Name, Vec<Name>), &'a [u8])>, Memory>
    ensures { IfOk result (IsReadFront pair_value (IsPair text.now)) }
{
    let Some((key, behind)) = front_word(alloc, text)? else {
        return Ok(None);
    };
    let Some(edges) = behind_sign(behind, b'=') else {
        return Ok(None);
    };
    match read_edges(alloc, edges)? {
        Some((values, rest)) => Ok(Some(((key, values), rest))),
        None => Ok(None),
    }
}

// An option at the front, and what stands behind it.
fn read_option<'a>(
    alloc: Global,
    bytes: &'a [u8],
) -> Result<Option<((Name, Vec<Name>), &'a [u8])>, Memory>
    ensures { IfOk result (IsReadFront pair_value (IsOption bytes.now)) }
{
    match behind_gap(bytes) {
        Some(text) => read_pair(alloc, text),
        None => Ok(None),
    }
}

// The options that all of the bytes are.
fn read_options(alloc: Global, bytes: &[u8]) -> Result<Option<Vec<(Name, Vec<Name>)>>, Memory>
    ensures { IfOk result (AreReadOptions bytes.now) }
{
    let mut pairs = Vec::new(alloc);
    let mut rest = bytes;
    loop {
        if rest.is_empty() {
            return Ok(Some(pairs));
        }
        let Some((pair, behind)) = read_option(alloc, rest)? else {
            return Ok(None);
        };
        pairs.push(pair)?;
        rest = behind;
    }
}

// What stands behind `format` and the spaces that follow it.
fn behind_format<'a>(alloc: Global, line: &'a [u8]) -> Result<Option<&'a [u8]>, Memory>
    ensures { IfOk result (λ found. MatchOption found ((text : List ℕ) → ¬ (IsWordBefore line.now (codes "format") text)) (λ text. IsWordBefore line.now (codes "format") text.now)) }
{
    let Some((first, text)) = word_before(alloc, line)? else {
        return Ok(None);
    };
    if is_word(&first, b"format") {
        return Ok(Some(text));
    }
    Ok(None)
}

/// What a format line says; none where it is none.
pub fn read_format(alloc: Global, line: &[u8]) -> Result<Option<FormatLine>, Memory>
    ensures { IfOk result (IsReadFormat line.now) }
{
    let Some(text) = behind_format(alloc, line)? else {
        return Ok(None);
    };
    let Some((word, rest)) = front_word(alloc, text)? else {
        return Ok(None);
    };
    match read_options(alloc, rest)? {
        Some(pairs) => Ok(Some(FormatLine { word, pairs })),
        None => Ok(None),
    }
}
