//! What tokens mean.
ghost use Rattle.std.specs.Prelude.{◌≡◌, not, ◌&&◌, ◌<◌, length, IfSome, MatchOption};
ghost use Rattle.hm_marks_tokens.specs.Symbols.{bare_symbol, symbol_named, symbol_of, is_skipped as is_skipped_symbol, name_len, IsNextSymbol, HasNoSymbol};
ghost use Rattle.hm_marks_tokens.specs.Lent.{token_seen, symbol_seen};

use crate::bytes::is_white;
use crate::token::{Token, next_token};

/// What a token means in a bookmark file. Of a tag that may have attributes the bytes between its name and its `>` are lent.
#[derive(Clone, Copy, Debug)]
pub enum Symbol<'a> {
    /// `<DL>`, which begins the list of a folder.
    List,
    /// `</DL>`, which ends it.
    ListEnd,
    /// `<DT>`, which begins a link or a folder.
    Entry,
    /// `<A attributes>`, which begins the title of a link.
    Link(&'a [u8]),
    /// `</A>`, which ends it.
    LinkEnd,
    /// `<H3 attributes>`, which begins the title of a folder.
    Heading(&'a [u8]),
    /// `</H3>`, which ends it.
    HeadingEnd,
    /// `<DD>`, which begins the note of a link or a folder.
    Note,
    /// `<HR attributes>`, a separator.
    Rule(&'a [u8]),
    /// `<p>`.
    Paragraph,
    /// A text.
    Words(&'a [u8]),
    /// Another tag.
    Stray,
}

/// What the first token means that isn't skipped, and what stands behind it; none where all are skipped. White space and
/// `<p>` are skipped, but not in a title: `titled` tells whether bytes stand in one.
pub fn next_symbol(bytes: &[u8], titled: bool) -> Option<(Symbol<'_>, &[u8])>
    ensures symbol { MatchOption result (HasNoSymbol titled bytes.now) (λ found. IsNextSymbol titled bytes.now (symbol_seen found.0) found.1.now) }
    ensures shorter { IfSome result (λ found. length found.1.now < length bytes.now) }
{
    let mut rest = bytes;
    while let Some((token, behind)) = next_token(rest) {
        let symbol = symbol_of(token);
        if !is_passed(symbol, titled) {
            return Some((symbol, behind));
        }
        rest = behind;
    }
    None
}

/// What a token means.
pub fn symbol_of(token: Token<'_>) -> Symbol<'_>
    ensures { symbol_seen result ≡ symbol_of (token_seen token.entry) }
{
    match token {
        Token::Text(bytes) => Symbol::Words(bytes),
        Token::Tag(inside) => {
            let (name, behind) = inside.split_at(name_len(inside));
            symbol_named(name, behind)
        }
    }
}

// How long the name of a tag is.
fn name_len(inside: &[u8]) -> usize
    ensures { result ≡ name_len inside.now }
{
    for place in 0..inside.len() {
        if inside[place].is_ascii_whitespace() {
            return place;
        }
    }
    inside.len()
}

// What a tag means, by its name and what stands behind this.
fn symbol_named<'a>(name: &[u8], behind: &'a [u8]) -> Symbol<'a>
    ensures { symbol_seen result ≡ symbol_named name.now behind.now }
{
    if name.eq_ignore_ascii_case(b"a") {
        return Symbol::Link(behind);
    }
    if name.eq_ignore_ascii_case(b"h3") {
        return Symbol::Heading(behind);
    }
    if name.eq_ignore_ascii_case(b"hr") {
        return Symbol::Rule(behind);
    }
    if is_white(behind) {
        bare_symbol(name)
    } else {
        Symbol::Stray
    }
}

// What a tag of a name alone means.
fn bare_symbol(name: &[u8]) -> Symbol<'static>
    ensures { symbol_seen result ≡ bare_symbol name.now }
{
    if name.eq_ignore_ascii_case(b"dt") {
        return Symbol::Entry;
    }
    if name.eq_ignore_ascii_case(b"/a") {
        return Symbol::LinkEnd;
    }
    if name.eq_ignore_ascii_case(b"dd") {
        return Symbol::Note;
    }
    if name.eq_ignore_ascii_case(b"dl") {
        return Symbol::List;
    }
    if name.eq_ignore_ascii_case(b"/dl") {
        return Symbol::ListEnd;
    }
    if name.eq_ignore_ascii_case(b"/h3") {
        return Symbol::HeadingEnd;
    }
    if name.eq_ignore_ascii_case(b"p") {
        return Symbol::Paragraph;
    }
    Symbol::Stray
}

// Whether a symbol isn't told: it is skipped, and stands in no title.
fn is_passed(symbol: Symbol<'_>, titled: bool) -> bool
    ensures { result ≡ (not titled && is_skipped_symbol (symbol_seen symbol.entry)) }
{
    !titled && is_skipped(symbol)
}

// Whether a symbol is white space or `<p>`.
fn is_skipped(symbol: Symbol<'_>) -> bool
    ensures { result ≡ is_skipped_symbol (symbol_seen symbol.entry) }
{
    match symbol {
        Symbol::Paragraph => true,
        Symbol::Words(bytes) => is_white(bytes),
        _ => false,
    }
}
