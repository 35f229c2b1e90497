//! The links and folders of a file.
ghost use Rattle.std.specs.Prelude.{◌≡◌, ◌<◌, ◌++◌, ◌∷◌, [], length, map, false, ℕ, List, IfOk, OnOk, IsUtf8};
ghost use Rattle.hm_marks.specs.Contents.{a_link, a_folder};
ghost use Rattle.hm_marks_trees.specs.Nodes.{contents, view};
ghost use Rattle.hm_marks_tokens.specs.Symbols.{Symbol as SeenSymbol, HasSymbols};
ghost use Rattle.hm_marks_tokens.specs.Grammar.{Contents};
ghost use Rattle.hm_netscape_entries.specs.Entries as entries;
ghost use Rattle.hm_netscape_entries.specs.Next.{IsLeft, IsInFolder};
ghost use Rattle.hm_netscape_entries.specs.Toolbars.{bar_of, other_of};
ghost use Rattle.hm_netscape_files.specs.Shown.{shown_of};

use crate::nesting::is_bar;
use hm_marks_trees::Node;
use hm_netscape_entries::{Next, address_in, next_entry, text_of};
use hm_tree::Memory;
use std::alloc::Global;

/// The links and folders of a file.
#[derive(Drop)]
pub struct Bookmarks {
    /// Those in the bookmarks bar.
    pub bar: Vec<Node>,
    /// Those beside it.
    pub other: Vec<Node>,
}

/// The links and folders that stand in the outermost folder.
pub fn bookmarks_in(alloc: Global, bytes: &[u8]) -> Result<Bookmarks, Memory>
    requires folder { IsInFolder bytes.now }
    requires utf8 { IsUtf8 bytes.now }
    ensures bar { IfOk result (λ found. (c : Contents) (more : List SeenSymbol) (rest : List ℕ) → IsLeft bytes.now c more rest → contents found.bar.items ≡ shown_of (bar_of c)) }
    ensures other { IfOk result (λ found. (c : Contents) (more : List SeenSymbol) (rest : List ℕ) → IsLeft bytes.now c more rest → contents found.other.items ≡ shown_of (other_of c)) }
{
    let mut bar = Vec::new(alloc);
    let mut other = Vec::new(alloc);
    let mut found = false;
    let mut rest = bytes;
    loop {
        let (next, behind) = next_entry(rest);
        rest = behind;
        match next {
            Next::End => return Ok(Bookmarks { bar, other }),
            Next::Link(attributes, title, _) => add_link(alloc, &mut other, attributes, title)?,
            Next::Folder(attributes, title, _) => {
                let (inside, behind) = nodes_in(alloc, rest)?;
                rest = behind;
                if is_bar(found, attributes) {
                    found = true;
                    bar = inside;
                } else {
                    add_folder(alloc, &mut other, title, inside)?;
                }
            }
            Next::Separator(_) => {}
        }
    }
}

// The links and folders that stand in a folder, and what stands behind its end. It calls itself for each folder in it, so folders
// aren't to lie too deep.
fn nodes_in(alloc: Global, bytes: &[u8]) -> Result<(Vec<Node>, &[u8]), Memory>
    requires folder { IsInFolder bytes.now }
    requires utf8 { IsUtf8 bytes.now }
    ensures nodes { IfOk result (λ found. (c : Contents) (more : List SeenSymbol) (rest : List ℕ) → IsLeft bytes.now c more rest → (contents found.0.items ≡ shown_of c) × HasSymbols false found.1.now more rest) }
    ensures utf8 { IfOk result (λ found. IsUtf8 found.1.now) }
    ensures shorter { IfOk result (λ found. length found.1.now < length bytes.now) }
{
    let mut nodes = Vec::new(alloc);
    let mut rest = bytes;
    loop {
        let (next, behind) = next_entry(rest);
        rest = behind;
        match next {
            Next::End => return Ok((nodes, rest)),
            Next::Link(attributes, title, _) => add_link(alloc, &mut nodes, attributes, title)?,
            Next::Folder(_, title, _) => {
                let (inside, behind) = nodes_in(alloc, rest)?;
                rest = behind;
                add_folder(alloc, &mut nodes, title, inside)?;
            }
            Next::Separator(_) => {}
        }
    }
}

// Puts a link behind others.
fn add_link(
    alloc: Global,
    nodes: &mut Vec<Node>,
    attributes: &[u8],
    title: &[u8],
) -> Result<(), Memory>
    requires attributes { IsUtf8 attributes.now }
    requires title { IsUtf8 title.now }
    ensures { OnOk result (map view nodes.new.items ≡ map view nodes.old.items ++ a_link (entries.text_of title.now, entries.address_in attributes.now) ∷ []) }
{
    let key = text_of(alloc, title)?;
    let address = address_in(alloc, attributes)?;
    Ok(nodes.push(Node::Link(key, address))?)
}

// Puts a folder behind others.
fn add_folder(
    alloc: Global,
    nodes: &mut Vec<Node>,
    title: &[u8],
    inside: Vec<Node>,
) -> Result<(), Memory>
    requires { IsUtf8 title.now }
    ensures { OnOk result (map view nodes.new.items ≡ map view nodes.old.items ++ a_folder (entries.text_of title.now) (contents inside.items) ∷ []) }
{
    let key = text_of(alloc, title)?;
    Ok(nodes.push(Node::Folder(key, inside))?)
}
