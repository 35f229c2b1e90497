//! The lines of a lens file that aren't of nodes.
ghost use Rattle.std.specs.Prelude.{◌≡◌, ◌↔◌, ◌∷◌, [], Some, slice_get, IsTrue, IfOk, codes};
ghost use Rattle.hm_schema_lines.specs.declared.token.Token.TheVariants.{Word};
ghost use Rattle.hm_focal.specs.OwnLines.{own_value, IsHeader, IsReadOwn};

use crate::format::read_format;
use crate::head::{read_lens_line, read_main_line};
use hm_schema_lines::{Token, is_word, lone_word, read_tokens};
use hm_terms::Term;
use hm_tree::{Memory, Name};
use std::alloc::Global;
use std::collections::VecDeque;

/// The name of a format, and its options: each key with its values.
#[derive(Drop)]
pub struct FormatLine {
    pub word: Name,
    pub pairs: Vec<(Name, Vec<Name>)>,
}

/// The lens of a line.
#[derive(Drop)]
pub enum Body {
    Term(Term),
    /// Its text is too large to be looked at further.
    Oversized,
}

/// A lens between two nodes.
#[derive(Drop)]
pub struct LensLine {
    pub name: Name,
    pub source: Name,
    pub view: Name,
    pub body: Body,
}

/// What a line says to the file itself.
#[derive(Drop)]
pub enum Own {
    /// It is skipped, of a node, unreadable, or out of its place.
    Nothing,
    Header,
    /// Each behind a pointer, so that the many other lines take little room.
    Format(Box<FormatLine>),
    Lens(Box<LensLine>),
    Main(Box<Body>),
}

fn are_header(mut tokens: VecDeque<Token>) -> bool
    ensures { IsTrue result ↔ (tokens.items ≡ Word (codes "harmony") ∷ Word (codes "lens") ∷ Word (codes "1") ∷ []) }
{
    let Some(Token::Word(first)) = tokens.pop_front() else {
        return false;
    };
    let Some(Token::Word(second)) = tokens.pop_front() else {
        return false;
    };
    let Some(third) = lone_word(tokens) else {
        return false;
    };
    is_word(&first, b"harmony") && is_word(&second, b"lens") && is_word(&third, b"1")
}

fn is_header(alloc: Global, line: &[u8]) -> Result<bool, Memory>
    ensures { IfOk result (λ found. IsTrue found ↔ IsHeader line.now) }
{
    match read_tokens(alloc, line)? {
        Some(tokens) => Ok(are_header(VecDeque::from(tokens))),
        None => Ok(false),
    }
}

// What a line says that begins with `h`, `f`, `l` or `m`, each of which begins one kind of line.
fn own_header(alloc: Global, line: &[u8]) -> Result<Own, Memory>
    requires { slice_get line.now 0 ≡ Some 104 }
    ensures { IfOk result (λ own. IsReadOwn line.now (own_value own)) }
{
    if is_header(alloc, line)? {
        return Ok(Own::Header);
    }
    Ok(Own::Nothing)
}

fn own_format(alloc: Global, line: &[u8]) -> Result<Own, Memory>
    requires { slice_get line.now 0 ≡ Some 102 }
    ensures { IfOk result (λ own. IsReadOwn line.now (own_value own)) }
{
    match read_format(alloc, line)? {
        Some(format) => Ok(Own::Format(Box::new(alloc, format)?)),
        None => Ok(Own::Nothing),
    }
}

fn own_lens(alloc: Global, line: &[u8]) -> Result<Own, Memory>
    requires { slice_get line.now 0 ≡ Some 108 }
    ensures { IfOk result (λ own. IsReadOwn line.now (own_value own)) }
{
    match read_lens_line(alloc, line)? {
        Some(lens) => Ok(Own::Lens(Box::new(alloc, lens)?)),
        None => Ok(Own::Nothing),
    }
}

fn own_main(alloc: Global, line: &[u8]) -> Result<Own, Memory>
    requires { slice_get line.now 0 ≡ Some 109 }
    ensures { IfOk result (λ own. IsReadOwn line.now (own_value own)) }
{
    match read_main_line(alloc, line)? {
        Some(body) => Ok(Own::Main(Box::new(alloc, body)?)),
        None => Ok(Own::Nothing),
    }
}

/// What a line says, wherever it stands.
pub fn read_own(alloc: Global, line: &[u8]) -> Result<Own, Memory>
    ensures { IfOk result (λ own. IsReadOwn line.now (own_value own)) }
{
    match line.first() {
        Some(b'h') => own_header(alloc, line),
        Some(b'f') => own_format(alloc, line),
        Some(b'l') => own_lens(alloc, line),
        Some(b'm') => own_main(alloc, line),
        _ => Ok(Own::Nothing),
    }
}
