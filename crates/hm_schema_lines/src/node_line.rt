//! What the lines of nodes say.
ghost use Rattle.std.specs.Prelude.{◌≡◌, ◌↔◌, ◌∷◌, ◌<◌, length, MatchOption, IsTrue, [], IfOk, IfSome, is_some, codes};
ghost use Rattle.hm_schema_lines.specs.declared.token.Token.TheVariants.{Word, Plus};
ghost use Rattle.hm_schema_lines.specs.NodeLines.{edge_name, IsReadTail, IsReadShape, IsReadClass, IsReadLine, IsFlushLine, IsIndentedLine, IsNodeLine};
ghost use Rattle.hm_schema_lines.specs.Reading.{and_name, names_at, optional_at};

use crate::count::{Count, read_count};
use crate::token::{Token, lone_word, read_tokens};
use hm_tree::{Class, Memory, Name};
use std::alloc::Global;
use std::collections::VecDeque;

/// Required and optional names, and the count of unlisted ones.
#[derive(Drop)]
pub struct ShapeLine {
    pub required: Vec<Name>,
    pub optional: Vec<Name>,
    pub count: Count,
}

/// What a line of a node says.
#[derive(Drop)]
pub enum NodeLine {
    /// Begins the node of a name.
    Node(Name),
    /// A listed name, and its child node.
    Edge(Name, Name),
    /// The class of the unlisted names, and their node.
    Other(Class, Name),
    /// A shape of the node.
    Shape(ShapeLine),
}

impl Token {
    // Whether it may stand for the name of an edge.
    fn is_name(&self) -> bool
        ensures { result ≡ is_some (edge_name self.now) }
    {
        matches!(self, Token::Word(_) | Token::Quoted(_))
    }

    /// The name where it may stand for the name of an edge.
    pub fn into_name(self) -> Option<Name>
        ensures { result ≡ edge_name self }
    {
        match self {
            Token::Word(name) => Some(name),
            Token::Quoted(name) => Some(name),
            _ => None,
        }
    }
}

// The name at the front, if one stands there; it is taken out.
fn take_name(tokens: &mut VecDeque<Token>) -> Option<Name>
    ensures taken { MatchOption result (names_at tokens.old.items ≡ ([], tokens.new.items)) (λ name. names_at tokens.old.items ≡ and_name name (names_at tokens.new.items)) }
    ensures fewer { IfSome result (λ _. length tokens.new.items < length tokens.old.items) }
{
    if !tokens.front()?.is_name() {
        return None;
    }
    tokens.pop_front()?.into_name()
}

// The names at the front; they are taken out.
fn take_names(alloc: Global, tokens: &mut VecDeque<Token>) -> Result<Vec<Name>, Memory>
    ensures { IfOk result (λ names. names_at tokens.old.items ≡ (names.items, tokens.new.items)) }
{
    let mut names = Vec::new(alloc);
    while let Some(name) = take_name(tokens) {
        names.push(name)?;
    }
    Ok(names)
}

// The names behind a question mark, if one stands at the front; all are taken out.
fn take_optional(alloc: Global, tokens: &mut VecDeque<Token>) -> Result<Vec<Name>, Memory>
    ensures { IfOk result (λ names. optional_at tokens.old.items ≡ (names.items, tokens.new.items)) }
{
    if !matches!(tokens.front(), Some(Token::Question)) {
        return Ok(Vec::new(alloc));
    }
    tokens.pop_front();
    take_names(alloc, tokens)
}

// The count at the end of a shape.
fn read_tail(alloc: Global, mut tokens: VecDeque<Token>) -> Result<Option<Count>, Memory>
    ensures { IfOk result (IsReadTail tokens.items) }
{
    match tokens.pop_front() {
        None => Ok(Some(Count {
            least: 0,
            most: Some(0),
        })),
        Some(Token::Plus) => behind_plus(alloc, tokens),
        Some(_) => Ok(None),
    }
}

// The same behind a plus.
fn behind_plus(alloc: Global, rest: VecDeque<Token>) -> Result<Option<Count>, Memory>
    ensures { IfOk result (IsReadTail (Plus ∷ rest.items)) }
{
    match lone_word(rest) {
        Some(word) => read_count(alloc, word.bytes()),
        None => Ok(None),
    }
}

// What stands behind `shape`.
fn read_shape(alloc: Global, mut tokens: VecDeque<Token>) -> Result<Option<ShapeLine>, Memory>
    ensures { IfOk result (IsReadShape tokens.items) }
{
    let required = take_names(alloc, &mut tokens)?;
    let optional = take_optional(alloc, &mut tokens)?;
    match read_tail(alloc, tokens)? {
        Some(count) => Ok(Some(ShapeLine {
            required,
            optional,
            count,
        })),
        None => Ok(None),
    }
}

// The class that a word names.
fn read_class(word: &Name) -> Option<Class>
    ensures { IsReadClass word.now result }
{
    match word.text() {
        "any" => Some(Class::Any),
        "clean" => Some(Class::Clean),
        "filled" => Some(Class::Filled),
        "trimmed" => Some(Class::Trimmed),
        "folded" => Some(Class::Folded),
        _ => None,
    }
}

/// Whether a name is a word.
pub fn is_word(name: &Name, word: &[u8]) -> bool
    ensures { IsTrue result ↔ (name.now ≡ word.now) }
{
    name.bytes() == word
}

// What a line says that begins a node, by its tokens.
fn flush_line(mut tokens: VecDeque<Token>) -> Option<NodeLine>
    ensures { IsReadLine (IsFlushLine tokens.items) result }
{
    let Some(Token::Word(first)) = tokens.pop_front() else {
        return None;
    };
    if !is_word(&first, b"node") {
        return None;
    }
    let name = lone_word(tokens)?;
    Some(NodeLine::Node(name))
}

// What a line inside a node says, by the tokens behind its two spaces.
fn indented_line(alloc: Global, mut tokens: VecDeque<Token>) -> Result<Option<NodeLine>, Memory>
    ensures { IfOk result (IsReadLine (IsIndentedLine tokens.items)) }
{
    let Some(Token::Word(first)) = tokens.pop_front() else {
        return Ok(None);
    };
    if is_word(&first, b"shape") {
        return shape_line(alloc, tokens);
    }
    let Some(second) = tokens.pop_front() else {
        return Ok(None);
    };
    let Some(node) = lone_word(tokens) else {
        return Ok(None);
    };
    if is_word(&first, b"edge") {
        return Ok(edge_line(second, node));
    }
    if is_word(&first, b"other") {
        return Ok(other_line(&second, node));
    }
    Ok(None)
}

fn shape_line(alloc: Global, rest: VecDeque<Token>) -> Result<Option<NodeLine>, Memory>
    ensures { IfOk result (IsReadLine (IsIndentedLine (Word (codes "shape") ∷ rest.items))) }
{
    match read_shape(alloc, rest)? {
        Some(shape) => Ok(Some(NodeLine::Shape(shape))),
        None => Ok(None),
    }
}

fn edge_line(edge: Token, node: Name) -> Option<NodeLine>
    ensures { IsReadLine (IsIndentedLine (Word (codes "edge") ∷ edge ∷ Word node ∷ [])) result }
{
    let name = edge.into_name()?;
    Some(NodeLine::Edge(name, node))
}

fn other_line(class: &Token, node: Name) -> Option<NodeLine>
    ensures { IsReadLine (IsIndentedLine (Word (codes "other") ∷ class.now ∷ Word node ∷ [])) result }
{
    let Token::Word(word) = class else {
        return None;
    };
    let class = read_class(word)?;
    Some(NodeLine::Other(class, node))
}

/// What a line says; none where it is no line of a node.
pub fn read_node_line(alloc: Global, line: &[u8]) -> Result<Option<NodeLine>, Memory>
    ensures { IfOk result (IsReadLine (IsNodeLine line.now)) }
{
    match line.strip_prefix(b"  ") {
        Some(text) => match read_tokens(alloc, text)? {
            Some(tokens) => indented_line(alloc, VecDeque::from(tokens)),
            None => Ok(None),
        },
        None => match read_tokens(alloc, line)? {
            Some(tokens) => Ok(flush_line(VecDeque::from(tokens))),
            None => Ok(None),
        },
    }
}
