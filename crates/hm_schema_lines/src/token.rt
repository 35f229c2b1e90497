//! The tokens of a line.
ghost use Rattle.std.specs.Prelude.{MatchOption, ◌≢◌, ◌∷◌, [], ◌≡◌, ◌==◌, ◌≤◌, ◌<◌, List, drop, length, IfOk, ℕ};
ghost use Rattle.std.specs.List.{prefix_len};
ghost use Rattle.hm_schema_lines.specs.declared.token.Token.TheVariants.{Word};
ghost use Rattle.hm_schema_lines.specs.Tokens.{is_word_byte, IsFirstToken, AreTokens};
ghost use Rattle.hm_schema_lines.specs.Reading.{IsFirstWord, IsFirstQuoted};

use hm_tree::{Memory, Name};
use hm_tree_spelling::unspell_name;
use std::alloc::Global;
use std::collections::VecDeque;

/// A token of a line.
#[derive(Drop)]
pub enum Token {
    /// One or more of `A`-`Z`, `a`-`z`, `0`-`9`, `_`, `-`, `.` and `*`.
    Word(Name),
    /// A name between quotes.
    Quoted(Name),
    Question,
    Plus,
}

fn is_word_byte(byte: u8) -> bool
    ensures { result ≡ is_word_byte byte }
{
    matches!(byte, b'A'..=b'Z' | b'a'..=b'z' | b'0'..=b'9' | b'_' | b'-' | b'.' | b'*')
}

// How many bytes at the front are those of a word.
fn word_length(bytes: &[u8]) -> usize
    ensures { result ≡ prefix_len is_word_byte bytes.now }
{
    bytes.iter().take_while(|byte| is_word_byte(**byte)).count()
}

/// How many spaces stand at the front.
pub fn gap_length(bytes: &[u8]) -> usize
    ensures { result ≡ prefix_len (λ b. b == 32) bytes.now }
{
    bytes.iter().take_while(|byte| **byte == b' ').count()
}

/// What stands behind the first bytes.
pub fn behind(bytes: &[u8], count: usize) -> &[u8]
    requires { count ≤ length bytes.now }
    ensures { result.now ≡ drop count bytes.now }
{
    &bytes[count..]
}

/// The word at the front, and its length.
pub fn first_word(alloc: Global, bytes: &[u8]) -> Result<Option<(Token, usize)>, Memory>
    ensures { IfOk result (IsFirstWord bytes.now) }
{
    let length = word_length(bytes);
    if length == 0 {
        return Ok(None);
    }
    let Ok(text) = std::str::from_utf8(&bytes[..length]) else {
        return Ok(None);
    };
    Ok(Some((Token::Word(Name::from_text(alloc, text)?), length)))
}

/// The name between quotes at the front, and the length of its spelling.
pub fn first_quoted(alloc: Global, bytes: &[u8]) -> Result<Option<(Token, usize)>, Memory>
    ensures { IfOk result (IsFirstQuoted bytes.now) }
{
    match unspell_name(alloc, bytes)? {
        Some((name, length)) => Ok(Some((Token::Quoted(name), length))),
        None => Ok(None),
    }
}

// The token at the front, and its length.
fn read_token(alloc: Global, bytes: &[u8]) -> Result<Option<(Token, usize)>, Memory>
    ensures { IfOk result (IsFirstToken bytes.now) }
{
    let Some(first) = bytes.first() else {
        return Ok(None);
    };
    if *first == b'"' {
        return first_quoted(alloc, bytes);
    }
    if *first == b'?' {
        return Ok(Some((Token::Question, 1)));
    }
    if *first == b'+' {
        return Ok(Some((Token::Plus, 1)));
    }
    first_word(alloc, bytes)
}

/// The tokens that the bytes are, with one or more spaces between two of them; none where they are no tokens.
pub fn read_tokens(alloc: Global, bytes: &[u8]) -> Result<Option<Vec<Token>>, Memory>
    ensures { IfOk result (AreTokens bytes.now) }
{
    let mut tokens = Vec::new(alloc);
    let mut rest = bytes;
    loop {
        let Some((token, length)) = read_token(alloc, rest)? else {
            return Ok(None);
        };
        tokens.push(token)?;
        if length == rest.len() {
            return Ok(Some(tokens));
        }
        let tail = behind(rest, length);
        let gap = gap_length(tail);
        if gap == 0 {
            return Ok(None);
        }
        rest = behind(tail, gap);
    }
}

/// The word that is the only token.
pub fn lone_word(mut tokens: VecDeque<Token>) -> Option<Name>
    ensures { MatchOption result ((word : List ℕ) → tokens.items ≢ Word word ∷ []) (λ word. tokens.items ≡ Word word ∷ []) }
{
    let Some(Token::Word(word)) = tokens.pop_front() else {
        return None;
    };
    if tokens.is_empty() { Some(word) } else { None }
}
