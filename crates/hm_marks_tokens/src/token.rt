//! The token that bytes begin with.
ghost use Rattle.std.specs.Prelude.{◌≡◌, ◌≢◌, ◌∷◌, false, ◌<◌, ◌≤◌, length, ℕ, List, IfSome, MatchOption};
ghost use Rattle.std.specs.List.{position_or_len};
ghost use Rattle.hm_marks_tokens.specs.Bytes.{less, quote};
ghost use Rattle.hm_marks_tokens.specs.Tokens.{tag, ends_run, behind_quote, inside_len, IsNext, HasNone};
ghost use Rattle.hm_marks_tokens.specs.Lent.{token_seen};

use crate::bytes::len_before;
use memchr::memchr2;

/// A tag or a text of a file.
#[derive(Clone, Copy, Debug)]
pub enum Token<'a> {
    /// What stands between `<` and the next `>` outside of double quotes.
    Tag(&'a [u8]),
    /// What stands between tags; it isn't empty.
    Text(&'a [u8]),
}

/// The token that bytes begin with, and what stands behind it; none where they are empty, or begin a tag that doesn't end.
pub fn next_token(bytes: &[u8]) -> Option<(Token<'_>, &[u8])>
    ensures token { MatchOption result (HasNone bytes.now) (λ found. IsNext bytes.now (token_seen found.0) found.1.now) }
    ensures shorter { IfSome result (λ found. length found.1.now < length bytes.now) }
{
    let Some((first, behind)) = bytes.split_first() else {
        return None;
    };
    if *first == b'<' {
        let (inside, rest) = next_tag(behind)?;
        return Some((Token::Tag(inside), rest));
    }
    let (text, rest) = bytes.split_at(len_before(b'<', bytes));
    Some((Token::Text(text), rest))
}

// The tag that a `<` before bytes begins, by what is inside of it, and what stands behind it.
fn next_tag(behind: &[u8]) -> Option<(&[u8], &[u8])>
    ensures { MatchOption result (HasNone (less ∷ behind.now)) (λ found. IsNext (less ∷ behind.now) (tag found.0.now) found.1.now) }
{
    let (inside, end) = behind.split_at(inside_len(behind));
    match end.split_first() {
        None => None,
        Some((_, rest)) => Some((inside, rest)),
    }
}

// How many bytes stand before the first `>` outside of double quotes, or before the end. It is looked for from quote to quote.
fn inside_len(bytes: &[u8]) -> usize
    ensures { result ≡ inside_len false bytes.now }
{
    let mut rest = bytes;
    loop {
        let (_, end) = rest.split_at(unquoted_len(rest));
        match begun_quote(end) {
            Some(quoted) => rest = behind_quote(quoted),
            None => return bytes.len() - end.len(),
        }
    }
}

// What stands behind the `"` that bytes begin with; none where they begin with none.
fn begun_quote(bytes: &[u8]) -> Option<&[u8]>
    ensures { MatchOption result ((rest : List ℕ) → bytes.now ≢ quote ∷ rest) (λ quoted. bytes.now ≡ quote ∷ quoted.now) }
{
    match bytes.split_first() {
        Some((b'"', rest)) => Some(rest),
        _ => None,
    }
}

// How many bytes stand before the first `>` or `"`, or before the end.
fn unquoted_len(bytes: &[u8]) -> usize
    ensures len { result ≡ position_or_len ends_run bytes.now }
    ensures within { result ≤ length bytes.now }
{
    match memchr2(b'>', b'"', bytes) {
        Some(place) => place,
        None => bytes.len(),
    }
}

// What stands behind the first `"`; nothing where there is none.
fn behind_quote(bytes: &[u8]) -> &[u8]
    ensures { result.now ≡ behind_quote bytes.now }
{
    let end = len_before(b'"', bytes);
    if end < bytes.len() {
        bytes.split_at(end + 1).1
    } else {
        b""
    }
}
