//! Writing: each form of the grammar at the end of one text.
ghost use Rattle.std.specs.Prelude.{◌≡◌, ◌↔◌, ◌<◌, ◌++◌, IsTrue, IfOk, OnOk, IsUtf8, length, Some, slice_get};
ghost use Rattle.hm_tree.specs.Nodes.{bare, edges, is_marked};
ghost use Rattle.hm_tree_text.specs.Text.{tree_text, archive_text, text as text_of, whole, below, separator as separator_of};
ghost use Rattle.hm_tree.specs.Archives.{recorded};
ghost use Rattle.hm_tree_text.specs.Writing.{present};

use hm_tree::{Archive, Memory, Name, State, Tree};
use hm_tree_spelling::append_spelled;
use std::alloc::Global;

// What is written: a node of a tree or of an archive.
trait Written {
    ghost use Rattle.hm_tree.specs.Nodes.{Node};
    ghost use Rattle.std.specs.Prelude.{true};

    ghost node: { Self → Node true };

    fn is_marked(&self) -> bool
        ensures { result ≡ is_marked (node self.now) };

    fn count(&self) -> usize
        ensures { result ≡ length (edges (node self.now)) };

    fn edge(&self, place: usize) -> (&Name, &Self)
        requires { place < length (edges (node self.now)) }
        ensures { slice_get (edges (node self.now)) place ≡ Some (result.0.now, node result.1.now) };
}

impl Written for Tree {
    ghost node = { recorded };

    fn is_marked(&self) -> bool {
        false
    }

    fn count(&self) -> usize {
        self.count()
    }

    fn edge(&self, place: usize) -> (&Name, &Tree) {
        self.edge(place)
    }
}

impl Written for Archive {
    ghost node = { present };

    fn is_marked(&self) -> bool {
        matches!(self.root(), State::Marked)
    }

    fn count(&self) -> usize {
        self.count()
    }

    fn edge(&self, place: usize) -> (&Name, &Archive) {
        self.edge(place)
    }
}

/// The text of a tree, without a line feed.
pub fn spell_tree(alloc: Global, tree: &Tree) -> Result<Vec<u8>, Memory>
    ensures { IfOk result (λ text. text.items ≡ text_of whole tree.now.shape) }
{
    let mut text = Vec::new(alloc);
    put_whole(&mut text, tree)?;
    Ok(text)
}

/// The file of a tree.
pub fn write_tree(alloc: Global, tree: &Tree) -> Result<Vec<u8>, Memory>
    ensures value { IfOk result (λ text. text.items ≡ tree_text tree.now) }
    ensures utf8 { IfOk result (λ text. IsUtf8 text.items) }
{
    let mut text = Vec::new(alloc);
    put_whole(&mut text, tree)?;
    text.push(b'\n')?;
    Ok(text)
}

/// The file of an archive.
pub fn write_archive(alloc: Global, archive: &Archive) -> Result<Vec<u8>, Memory>
    ensures value { IfOk result (λ text. text.items ≡ archive_text archive.now) }
    ensures utf8 { IfOk result (λ text. IsUtf8 text.items) }
{
    let mut text = Vec::new(alloc);
    if let State::Missing = archive.root() {
        return Ok(text);
    }
    put_whole(&mut text, archive)?;
    text.push(b'\n')?;
    Ok(text)
}

// A node, with its braces, or a mark.
#[cycle(writing)]
fn put_whole<N: Written>(text: &mut Vec<u8>, node: &N) -> Result<(), Memory>
    ensures { OnOk result (text.new.items ≡ text.old.items ++ text_of whole (N.node node.now).shape) }
{
    if node.is_marked() {
        text.push(b'!')?;
        return Ok(());
    }
    text.push(b'{')?;
    let count = node.count();
    if count == 0 {
        text.push(b'}')?;
        return Ok(());
    }
    for place in 0..count {
        let (name, child) = node.edge(place);
        append_spelled(name, text)?;
        put_below(text, child)?;
        text.push(separator(place + 1 < count))?;
    }
    Ok(())
}

// What stands behind a name: nothing, or a colon and a mark or a node with edges.
#[cycle(writing)]
fn put_below<N: Written>(text: &mut Vec<u8>, node: &N) -> Result<(), Memory>
    ensures { OnOk result (text.new.items ≡ text.old.items ++ text_of below (N.node node.now).shape) }
{
    if is_bare(node) {
        return Ok(());
    }
    text.push(b':')?;
    put_whole(text, node)
}

// Whether a node has no edges and is no mark.
fn is_bare<N: Written>(node: &N) -> bool
    ensures { IsTrue result ↔ ((N.node node.now).shape ≡ bare) }
{
    if node.is_marked() {
        return false;
    }
    node.count() == 0
}

// What stands behind an edge: whether there are more.
fn separator(more: bool) -> u8
    ensures { result ≡ separator_of more }
{
    if more { b',' } else { b'}' }
}
