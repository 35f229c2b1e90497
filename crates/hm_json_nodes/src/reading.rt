//! Nodes that are read.
ghost use Rattle.std.specs.Prelude.{◌≡◌, ◌+◌, ◌∷◌, [], ℕ, IfOk, OnOk, Err};
ghost use Rattle.hm_tree.specs.Cleaned.{cleaned};
ghost use Rattle.hm_marks_trees.specs.declared.node.Node.TheVariants.{Link, Folder};
ghost use Rattle.serde_json.specs.Data.{item, no_items};
ghost use Rattle.serde_json.specs.View.{view, items_view};
ghost use Rattle.hm_json_nodes.specs.Numbers.{listed};
ghost use Rattle.hm_json_nodes.specs.Reading.{AreRead, IsMisfit};
ghost use Rattle.hm_json_nodes.specs.declared.fault.NodeFault.TheVariants.{Misfit};

use crate::fault::NodeFault;
use crate::kind::{Kind, kind_of};
use hm_marks_trees::Node;
use hm_tree::{Memory, Name};
use serde_json::Value;
use std::alloc::Global;

/// The nodes of a folder, with what stands in each. They are counted: so many stand before them.
#[cycle(nodes)]
pub fn nodes_of(
    alloc: Global,
    values: &Vec<Value>,
    count: &mut usize,
) -> Result<Vec<Node>, NodeFault>
    ensures nodes { IfOk result (λ nodes. AreRead (items_view values.now.items) count.old count.new nodes.items) }
    ensures misfit { (number : ℕ) → result ≡ Err (Misfit number) → IsMisfit (listed (items_view values.now.items)) count.old number }
{
    let mut nodes = Vec::with_capacity(alloc, values.len())?;
    for value in values {
        let node = node_of(alloc, value, count)?;
        nodes.push(node)?;
    }
    Ok(nodes)
}

// The node that a value is.
#[cycle(nodes)]
fn node_of(alloc: Global, value: &Value, count: &mut usize) -> Result<Node, NodeFault>
    ensures node { IfOk result (λ node. AreRead (item (view value.now) no_items) count.old count.new (node ∷ [])) }
    ensures misfit { (number : ℕ) → result ≡ Err (Misfit number) → IsMisfit (listed (item (view value.now) no_items)) count.old number }
{
    count_one(count)?;
    match kind_of(value) {
        Kind::Link(name, address) => Ok(link(alloc, name, address)?),
        Kind::Folder(name, children) => {
            let inside = nodes_of(alloc, children, count)?;
            Ok(folder(alloc, name, inside)?)
        }
        Kind::Neither => Err(NodeFault::Misfit { number: *count }),
    }
}

/// Counts a node.
pub fn count_one(count: &mut usize) -> Result<(), Memory>
    ensures { OnOk result (count.new ≡ count.old + 1) }
{
    match count.checked_add(1) {
        Some(more) => {
            *count = more;
            Ok(())
        }
        None => Err(Memory),
    }
}

// A link, by its name and its address as they are spelled.
fn link(alloc: Global, name: &str, address: &str) -> Result<Node, Memory>
    ensures { IfOk result (λ node. node ≡ Link (cleaned name.now) (cleaned address.now)) }
{
    Ok(Node::Link(Name::cleaned(alloc, name)?, Name::cleaned(alloc, address)?))
}

// A folder, by its name as it is spelled.
fn folder(alloc: Global, name: &str, inside: Vec<Node>) -> Result<Node, Memory>
    ensures { IfOk result (λ node. node ≡ Folder (cleaned name.now) inside) }
{
    Ok(Node::Folder(Name::cleaned(alloc, name)?, inside))
}
