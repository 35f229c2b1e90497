//! Lens lines and the main line: words, `=`, and the text of a term.
ghost use Rattle.std.specs.Prelude.{◌≡◌, ◌≢◌, ◌∷◌, [], ◌↔◌, IsTrue, IfOk, MatchOption, codes};
ghost use Rattle.hm_tree.specs.Names.{Name};
ghost use Rattle.hm_focal.specs.Front.{IsReadFront};
ghost use Rattle.hm_focal.specs.OwnLines.{names_value, IsHeaded, IsTrimmed, IsReadBody, IsReadLens, IsReadMain};

use crate::front::{behind_gap, behind_sign, word_before};
use crate::own::{Body, LensLine};
use hm_focal_terms::{TermRead, read_term};
use hm_schema_lines::is_word;
use hm_tree::{Memory, Name};
use std::alloc::Global;
use std::collections::VecDeque;

// The words in front of `=`, and what stands behind the spaces that follow it.
fn read_head<'a>(alloc: Global, line: &'a [u8]) -> Result<Option<(Vec<Name>, &'a [u8])>, Memory>
    ensures { IfOk result (IsReadFront names_value (IsHeaded line.now)) }
{
    let mut words = Vec::new(alloc);
    let mut rest = line;
    loop {
        if let Some(behind) = behind_sign(rest, b'=') {
            let Some(text) = behind_gap(behind) else {
                return Ok(None);
            };
            return Ok(Some((words, text)));
        }
        let Some((word, next)) = word_before(alloc, rest)? else {
            return Ok(None);
        };
        words.push(word)?;
        rest = next;
    }
}

// Whether no space stands at the end.
fn is_trimmed(text: &[u8]) -> bool
    ensures { IsTrue result ↔ IsTrimmed text.now }
{
    text.last() != Some(&b' ')
}

// The body of a lens; none where the text is none.
fn read_body(alloc: Global, text: &[u8]) -> Result<Option<Body>, Memory>
    ensures { IfOk result (IsReadBody text.now) }
{
    if !is_trimmed(text) {
        return Ok(None);
    }
    match read_term(alloc, text)? {
        TermRead::Term(term) => Ok(Some(Body::Term(term))),
        TermRead::Oversized => Ok(Some(Body::Oversized)),
        TermRead::Nothing => Ok(None),
    }
}

// The name, the source and the view of a lens, by the words in front of `=`.
fn lens_words(mut words: VecDeque<Name>) -> Option<(Name, Name, Name)>
    ensures { MatchOption result ((n s v : Name) → words.items ≢ codes "lens" ∷ n ∷ s ∷ v ∷ []) (λ found. words.items ≡ codes "lens" ∷ found.0 ∷ found.1 ∷ found.2 ∷ []) }
{
    let first = words.pop_front()?;
    let name = words.pop_front()?;
    let source = words.pop_front()?;
    let view = words.pop_front()?;
    if is_word(&first, b"lens") && words.is_empty() {
        return Some((name, source, view));
    }
    None
}

// Whether the words in front of `=` are those of a main line.
fn are_main(mut words: VecDeque<Name>) -> bool
    ensures { IsTrue result ↔ (words.items ≡ codes "main" ∷ []) }
{
    let Some(first) = words.pop_front() else {
        return false;
    };
    is_word(&first, b"main") && words.is_empty()
}

/// What a lens line says; none where it is none.
pub fn read_lens_line(alloc: Global, line: &[u8]) -> Result<Option<LensLine>, Memory>
    ensures { IfOk result (IsReadLens line.now) }
{
    let Some((words, text)) = read_head(alloc, line)? else {
        return Ok(None);
    };
    let Some((name, source, view)) = lens_words(VecDeque::from(words)) else {
        return Ok(None);
    };
    match read_body(alloc, text)? {
        Some(body) => Ok(Some(LensLine {
            name,
            source,
            view,
            body,
        })),
        None => Ok(None),
    }
}

/// The body that a main line has; none where it is none.
pub fn read_main_line(alloc: Global, line: &[u8]) -> Result<Option<Body>, Memory>
    ensures { IfOk result (IsReadMain line.now) }
{
    let Some((words, text)) = read_head(alloc, line)? else {
        return Ok(None);
    };
    if !are_main(VecDeque::from(words)) {
        return Ok(None);
    }
    match read_body(alloc, text)? {
        Some(body) => Ok(Some(body)),
        None => Ok(None),
    }
}
