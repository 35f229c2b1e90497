//! What stands at the front of some bytes: words, names of edges, and spaces.
ghost use Rattle.std.specs.Prelude.{◌≡◌, ◌≢◌, ◌∷◌, IfOk, MatchOption, List, ℕ};
ghost use Rattle.hm_tree.specs.Names.{Name};
ghost use Rattle.hm_schema_lines.specs.declared.token.Token.TheVariants.{Word};
ghost use Rattle.hm_focal.specs.Front.{IsFrontWord, IsFrontEdge, IsGap, IsWordBefore, IsReadName, IsFirstEdge};

use hm_schema_lines::{Token, behind, first_quoted, first_word, gap_length};
use hm_tree::{Memory, Name};
use std::alloc::Global;

// The token of an edge's name at the front, and its length.
fn first_edge(alloc: Global, bytes: &[u8]) -> Result<Option<(Token, usize)>, Memory>
    ensures { IfOk result (IsFirstEdge bytes.now) }
{
    match first_word(alloc, bytes)? {
        Some(found) => Ok(Some(found)),
        None => first_quoted(alloc, bytes),
    }
}

// The word that a token is.
fn word_of(token: Token) -> Option<Name>
    ensures { MatchOption result ((word : Name) → token ≢ Word word) (λ word. token ≡ Word word) }
{
    match token {
        Token::Word(word) => Some(word),
        _ => None,
    }
}

/// The name of an edge at the front, and what stands behind it.
pub fn front_edge<'a>(alloc: Global, bytes: &'a [u8]) -> Result<Option<(Name, &'a [u8])>, Memory>
    ensures { IfOk result (IsReadName (IsFrontEdge bytes.now)) }
{
    let Some((token, length)) = first_edge(alloc, bytes)? else {
        return Ok(None);
    };
    match token.into_name() {
        Some(name) => Ok(Some((name, behind(bytes, length)))),
        None => Ok(None),
    }
}

/// The word at the front, and what stands behind it.
pub fn front_word<'a>(alloc: Global, bytes: &'a [u8]) -> Result<Option<(Name, &'a [u8])>, Memory>
    ensures { IfOk result (IsReadName (IsFrontWord bytes.now)) }
{
    let Some((token, length)) = first_edge(alloc, bytes)? else {
        return Ok(None);
    };
    match word_of(token) {
        Some(name) => Ok(Some((name, behind(bytes, length)))),
        None => Ok(None),
    }
}

/// What stands behind the spaces at the front; none where no space stands there.
pub fn behind_gap(bytes: &[u8]) -> Option<&[u8]>
    ensures { MatchOption result ((rest : List ℕ) → ¬ (IsGap bytes.now rest)) (λ rest. IsGap bytes.now rest.now) }
{
    let length = gap_length(bytes);
    if length == 0 {
        return None;
    }
    Some(behind(bytes, length))
}

/// The word at the front, and what stands behind the spaces that follow it.
pub fn word_before<'a>(alloc: Global, bytes: &'a [u8]) -> Result<Option<(Name, &'a [u8])>, Memory>
    ensures { IfOk result (IsReadName (IsWordBefore bytes.now)) }
{
    let Some((word, behind)) = front_word(alloc, bytes)? else {
        return Ok(None);
    };
    match behind_gap(behind) {
        Some(rest) => Ok(Some((word, rest))),
        None => Ok(None),
    }
}

/// What stands behind a sign at the front.
pub fn behind_sign(bytes: &[u8], sign: u8) -> Option<&[u8]>
    ensures { MatchOption result ((rest : List ℕ) → bytes.now ≢ sign ∷ rest) (λ rest. bytes.now ≡ sign ∷ rest.now) }
{
    if bytes.first() != Some(&sign) {
        return None;
    }
    Some(&bytes[1..])
}
