//! What stands at the front of a text, behind any spaces, with what is left behind it.
ghost use Rattle.std.specs.Prelude.{◌≡◌, ◌≢◌, ℕ, List, IfOk, MatchOption};
ghost use Rattle.hm_tree.specs.Names.{Name};
ghost use Rattle.hm_schema_lines.specs.declared.token.Token.TheVariants.{Word};
ghost use Rattle.hm_focal_terms.specs.Fronts.{unspaced, IsSign, IsWord, IsEdge, IsTree};
ghost use Rattle.hm_focal_terms.specs.Reading.{IsFirstEdge, IsFound};

use hm_schema_lines::{Token, behind, first_quoted, first_word, gap_length};
use hm_tree::{Memory, Name, Tree};
use hm_tree_text::first_tree;
use std::alloc::Global;

// What is left behind the spaces at the front.
fn unspaced(text: &[u8]) -> &[u8]
    ensures { result.now ≡ unspaced text.now }
{
    behind(text, gap_length(text))
}

/// What is left behind a sign.
pub fn read_sign(text: &[u8], sign: u8) -> Option<&[u8]>
    ensures { MatchOption result ((rest : List ℕ) → ¬ (IsSign sign text.now rest)) (λ rest. IsSign sign text.now rest.now) }
{
    let (first, rest) = unspaced(text).split_first()?;
    if *first == sign { Some(rest) } else { None }
}

/// The word.
pub fn read_word<'a>(alloc: Global, text: &'a [u8]) -> Result<Option<(Name, &'a [u8])>, Memory>
    ensures { IfOk result (IsFound IsWord text.now) }
{
    let front = unspaced(text);
    let Some((token, length)) = first_word(alloc, front)? else {
        return Ok(None);
    };
    match word_of(token) {
        Some(word) => Ok(Some((word, behind(front, length)))),
        None => Ok(None),
    }
}

// The word that a token is.
fn word_of(token: Token) -> Option<Name>
    ensures { MatchOption result ((w : Name) → token ≢ Word w) (λ w. token ≡ Word w) }
{
    match token {
        Token::Word(word) => Some(word),
        _ => None,
    }
}

// The token of an edge's name at the front, and its length.
fn first_edge(alloc: Global, text: &[u8]) -> Result<Option<(Token, usize)>, Memory>
    ensures { IfOk result (IsFirstEdge text.now) }
{
    match first_word(alloc, text)? {
        Some(found) => Ok(Some(found)),
        None => first_quoted(alloc, text),
    }
}

/// The name of an edge.
pub fn read_edge<'a>(alloc: Global, text: &'a [u8]) -> Result<Option<(Name, &'a [u8])>, Memory>
    ensures { IfOk result (IsFound IsEdge text.now) }
{
    let front = unspaced(text);
    let Some((token, length)) = first_edge(alloc, front)? else {
        return Ok(None);
    };
    match token.into_name() {
        Some(name) => Ok(Some((name, behind(front, length)))),
        None => Ok(None),
    }
}

/// The tree.
pub fn read_tree<'a>(alloc: Global, text: &'a [u8]) -> Result<Option<(Tree, &'a [u8])>, Memory>
    ensures { IfOk result (IsFound IsTree text.now) }
{
    let front = unspaced(text);
    match first_tree(alloc, front)? {
        Some((tree, length)) => Ok(Some((tree, behind(front, length)))),
        None => Ok(None),
    }
}
