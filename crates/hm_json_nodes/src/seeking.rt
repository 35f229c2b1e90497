//! Nodes that are sought in the tree of what is to stand in their folder.
ghost use Rattle.std.specs.Prelude.{IfOk, IsTrue};
ghost use Rattle.hm_tree.specs.Cleaned.{cleaned};
ghost use Rattle.hm_tree.specs.Nodes.{Tree as TreeValue};
ghost use Rattle.hm_marks.specs.Among.{IsAmong};
ghost use Rattle.hm_marks.specs.FolderTrees.{IsLinkTree};
ghost use Rattle.hm_marks_schema.specs.Members.{IsAt};
ghost use Rattle.serde_json.specs.View.{view, items_view};
ghost use Rattle.hm_json_nodes.specs.Seeking.{IsLacking, IsOtherTree};

use crate::kind::{Kind, kind_of};
use hm_marks_schema::{FolderAt, folder_at, lacks_link};
use hm_tree::{Memory, Name, Tree};
use serde_json::Value;
use std::alloc::Global;

/// Whether a tree is certainly another one than that of a folder with these nodes: it has more keys than there are nodes, or it
/// lacks one. It stops at the first that is lacking, and passes over those of which nothing is known.
#[cycle(seeking)]
pub fn is_other_tree(alloc: Global, tree: &Tree, values: &Vec<Value>) -> Result<bool, Memory>
    requires { IsAt 1 tree.now }
    ensures { IfOk result (λ other. IsTrue other → IsOtherTree tree.now (items_view values.now.items)) }
{
    if tree.count() > values.len() {
        return Ok(true);
    }
    for value in values {
        if lacks_node(alloc, tree, value)? {
            return Ok(true);
        }
    }
    Ok(false)
}

// Whether a tree certainly lacks a node. A value that is none is lacking.
#[cycle(seeking)]
fn lacks_node(alloc: Global, tree: &Tree, value: &Value) -> Result<bool, Memory>
    requires { IsAt 1 tree.now }
    ensures { IfOk result (λ lacking. IsTrue lacking → IsLacking tree.now (view value.now)) }
{
    match kind_of(value) {
        Kind::Link(name, address) => lacks_spelled(alloc, tree, name, address),
        Kind::Folder(name, children) => {
            let key = Name::cleaned(alloc, name)?;
            match folder_at(tree, &key) {
                FolderAt::Nowhere => Ok(true),
                FolderAt::Only(inside) => is_other_tree(alloc, inside, children),
                FolderAt::Unknown => Ok(false),
            }
        }
        Kind::Neither => Ok(true),
    }
}

// Whether a tree certainly lacks a link, by its name and its address as they are spelled.
fn lacks_spelled(alloc: Global, tree: &Tree, name: &str, address: &str) -> Result<bool, Memory>
    requires { IsAt 1 tree.now }
    ensures { IfOk result (λ lacking. IsTrue lacking → (t : TreeValue) → IsLinkTree (cleaned address.now) t → IsAmong (cleaned name.now) tree.now t → ⊥) }
{
    let key = Name::cleaned(alloc, name)?;
    let address = Name::cleaned(alloc, address)?;
    Ok(lacks_link(tree, &key, &address))
}
