//! Files that are read.
ghost use Rattle.std.specs.Prelude.{◌≡◌, ℕ, List, IfOk, Err, IsUtf8};
ghost use Rattle.serde_json.specs.View.{view};
ghost use Rattle.hm_format.specs.Answers.{Reads};
ghost use Rattle.hm_json_documents.specs.Documents.{IsDocument};
ghost use Rattle.hm_json_nodes.specs.Numbers.{IsFirstBad};
ghost use Rattle.hm_json_nodes.specs.declared.fault.NodeFault.TheVariants.{Misfit};
ghost use Rattle.hm_json_marks.specs.Roots.{from_root, numbered, fits};
ghost use Rattle.hm_json_marks.specs.Files.{JsonReads};
ghost use Rattle.hm_json_marks.specs.Reading.{IsRootRead, IsRootCounted, IsMisfitIn, GivesTree};
ghost use Rattle.hm_marks_trees.specs.Nodes.{contents};

use crate::roots::roots_of;
use hm_book_items::ItemTreeFault;
use hm_format::FormatFault;
use hm_json_documents::read_document;
use hm_json_nodes::{Kind, NodeFault, count_one, kind_of, nodes_of};
use hm_marks_trees::{Node, bookmarks_tree};
use hm_tree::Tree;
use serde_json::Value;
use std::alloc::Global;

/// The tree of a file, or why it has none.
pub(crate) fn read_file(alloc: Global, bytes: &[u8]) -> Result<Tree, FormatFault>
    ensures { Reads (JsonReads bytes.now) result }
{
    match std::str::from_utf8(bytes) {
        Ok(text) => read_text(alloc, text),
        Err(error) => Err(FormatFault::NotUtf8 {
            at: error.valid_up_to(),
        }),
    }
}

// The same of a text.
fn read_text(alloc: Global, text: &str) -> Result<Tree, FormatFault>
    ensures { Reads (JsonReads text.now) result }
{
    match read_document(alloc, text)? {
        Some(file) => tree_of(alloc, &file),
        None => Err(FormatFault::BadItem { number: 0 }),
    }
}

/// The same of a document.
pub(crate) fn tree_of(alloc: Global, file: &Value) -> Result<Tree, FormatFault>
    ensures { (bytes : List ℕ) → IsUtf8 bytes → IsDocument bytes (view file.now) → Reads (JsonReads bytes) result }
{
    let Some((bar, other)) = roots_of(file) else {
        return Err(FormatFault::BadItem { number: 0 });
    };
    match nodes_of_roots(alloc, bar, other) {
        Ok((bar, other)) => whole_tree(alloc, bar, other),
        Err(NodeFault::Misfit { number }) => Err(FormatFault::BadItem { number }),
        Err(NodeFault::Memory) => Err(FormatFault::Memory),
    }
}

// The tree of a file with these nodes in its two folders.
fn whole_tree(alloc: Global, bar: Vec<Node>, other: Vec<Node>) -> Result<Tree, FormatFault>
    ensures { GivesTree (contents bar.items) (contents other.items) result }
{
    match bookmarks_tree(alloc, bar, other) {
        Ok(tree) => Ok(tree),
        Err(ItemTreeFault::TooDeep { depth }) => Err(FormatFault::TooDeep { depth }),
        Err(ItemTreeFault::Memory) => Err(FormatFault::Memory),
    }
}

// The nodes in the two roots.
fn nodes_of_roots(
    alloc: Global,
    bar: &Value,
    other: &Value,
) -> Result<(Vec<Node>, Vec<Node>), NodeFault>
    ensures bar { IfOk result (λ nodes. IsRootRead (view bar.now) nodes.0.items) }
    ensures other { IfOk result (λ nodes. IsRootRead (view other.now) nodes.1.items) }
    ensures misfit { (number : ℕ) → result ≡ Err (Misfit number) → IsFirstBad fits (numbered (view bar.now) (view other.now)) number }
{
    let mut count = 0;
    let in_bar = root_nodes(alloc, bar, &mut count)?;
    let in_other = root_nodes(alloc, other, &mut count)?;
    Ok((in_bar, in_other))
}

// The nodes in a root, which has to be a folder.
fn root_nodes(alloc: Global, root: &Value, count: &mut usize) -> Result<Vec<Node>, NodeFault>
    ensures nodes { IfOk result (λ nodes. IsRootCounted (view root.now) count.old count.new nodes.items) }
    ensures misfit { (number : ℕ) → result ≡ Err (Misfit number) → IsMisfitIn (from_root (view root.now)) count.old number }
{
    count_one(count)?;
    match kind_of(root) {
        Kind::Folder(_, children) => nodes_of(alloc, children, count),
        Kind::Link(_, _) => Err(NodeFault::Misfit { number: *count }),
        Kind::Neither => Err(NodeFault::Misfit { number: *count }),
    }
}
