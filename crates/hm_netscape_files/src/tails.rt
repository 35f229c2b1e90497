//! The tail of a file.
ghost use Rattle.std.specs.Prelude.{◌≡◌, ◌↔◌, IsTrue};
ghost use Rattle.hm_marks_tokens.specs.Bytes.{is_white};
ghost use Rattle.hm_marks_tokens.specs.Symbols.{paragraph, symbol_of};
ghost use Rattle.hm_marks_tokens.specs.Lent.{token_seen};
ghost use Rattle.hm_netscape_files.specs.Tails.{IsTail};

use crate::heads::behind_white;
use hm_marks_tokens::{Symbol, Token, next_token, symbol_of};

/// Whether bytes are a tail: white space, and a `<p>` among it or none.
pub fn is_tail(bytes: &[u8]) -> bool
    ensures { IsTrue result ↔ IsTail bytes.now }
{
    let behind = behind_white(bytes);
    match next_token(behind) {
        Some((token, rest)) => is_paragraph(token) && is_white(rest),
        None => behind.is_empty(),
    }
}

// Whether a token is a `<p>`.
fn is_paragraph(token: Token<'_>) -> bool
    ensures { IsTrue result ↔ (symbol_of (token_seen token.entry) ≡ paragraph) }
{
    matches!(symbol_of(token), Symbol::Paragraph)
}

// Whether bytes are white space.
fn is_white(bytes: &[u8]) -> bool
    ensures { result ≡ is_white bytes.now }
{
    bytes.iter().all(|byte| byte.is_ascii_whitespace())
}
