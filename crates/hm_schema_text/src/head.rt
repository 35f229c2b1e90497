//! The head of a schema file: the first two of its lines that aren't skipped.
ghost use Rattle.std.specs.Prelude.{◌≡◌, ◌↔◌, ◌∷◌, ◌<◌, [], IsTrue, IfOk, MatchOption, codes, count_by, option_copied, slice_get};
ghost use Rattle.hm_tree.specs.Names.{Name};
ghost use Rattle.hm_schema_lines.specs.declared.token.Token.TheVariants.{Word};
ghost use Rattle.hm_schema_lines.specs.Entries.{texts_of, entry_values};
ghost use Rattle.hm_schema_lines.specs.BadLines.{is_counted};
ghost use Rattle.hm_schema_text.specs.Head.{IsHeader, IsRoot, IsHeaderAt, IsRootAt, IsNth, IsReadRoot};

use bstr::ByteSlice;
use hm_schema_lines::{Entry, Token, is_counted, lone_word, read_tokens};
use hm_tree::{Memory, Name};
use std::alloc::Global;
use std::collections::VecDeque;

// Whether a name is a word.
fn is_word(name: &Name, word: &[u8]) -> bool
    ensures { IsTrue result ↔ (name.now ≡ word.now) }
{
    name.bytes() == word
}

fn are_header(mut tokens: VecDeque<Token>) -> bool
    ensures { IsTrue result ↔ (tokens.items ≡ Word (codes "harmony") ∷ Word (codes "schema") ∷ Word (codes "1") ∷ []) }
{
    let Some(Token::Word(first)) = tokens.pop_front() else {
        return false;
    };
    let Some(Token::Word(second)) = tokens.pop_front() else {
        return false;
    };
    let Some(third) = lone_word(tokens) else {
        return false;
    };
    is_word(&first, b"harmony") && is_word(&second, b"schema") && is_word(&third, b"1")
}

fn is_header(alloc: Global, line: &[u8]) -> Result<bool, Memory>
    ensures { IfOk result (λ found. IsTrue found ↔ IsHeader line.now) }
{
    match read_tokens(alloc, line)? {
        Some(tokens) => Ok(are_header(VecDeque::from(tokens))),
        None => Ok(false),
    }
}

// The name behind `root`.
fn behind_root(mut tokens: VecDeque<Token>) -> Option<Name>
    ensures { IsReadRoot (λ w. tokens.items ≡ Word (codes "root") ∷ Word w ∷ []) result }
{
    let Some(Token::Word(first)) = tokens.pop_front() else {
        return None;
    };
    if !is_word(&first, b"root") {
        return None;
    }
    lone_word(tokens)
}

fn read_root(alloc: Global, line: &[u8]) -> Result<Option<Name>, Memory>
    ensures { IfOk result (IsReadRoot (IsRoot line.now)) }
{
    match read_tokens(alloc, line)? {
        Some(tokens) => Ok(behind_root(VecDeque::from(tokens))),
        None => Ok(None),
    }
}

// A line of a file, without its end.
fn line_at(bytes: &[u8], place: usize) -> Option<&[u8]>
    ensures { option_copied result ≡ slice_get (texts_of bytes.now) place }
{
    bytes.lines().nth(place)
}

/// Whether a line of a file is the header.
pub fn is_header_at(alloc: Global, bytes: &[u8], place: usize) -> Result<bool, Memory>
    ensures { IfOk result (λ found. IsTrue found ↔ IsHeaderAt bytes.now place) }
{
    match line_at(bytes, place) {
        Some(line) => is_header(alloc, line),
        None => Ok(false),
    }
}

/// The name of the root's node, where a line of a file has it.
pub fn root_at(alloc: Global, bytes: &[u8], place: usize) -> Result<Option<Name>, Memory>
    ensures { IfOk result (IsReadRoot (IsRootAt bytes.now place)) }
{
    match line_at(bytes, place) {
        Some(line) => read_root(alloc, line),
        None => Ok(None),
    }
}

/// The place of the second line that isn't skipped.
pub fn second_line(entries: &[Entry]) -> Option<usize>
    ensures { MatchOption result (count_by is_counted (entry_values entries.now) < 2) (IsNth (entry_values entries.now) 1) }
{
    let mut lines = 0;
    for place in 0..entries.len() {
        let counted = is_counted(&entries[place]);
        if counted && lines == 1 {
            return Some(place);
        }
        lines += usize::from(counted);
    }
    None
}
