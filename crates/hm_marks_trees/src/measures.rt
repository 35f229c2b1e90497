//! How many folders nest in nodes, and how deep their tree will be.
ghost use Rattle.std.specs.Prelude.{◌≡◌, ◌+◌, IfOk, OnOk};
ghost use Rattle.hm_marks_schema.specs.Bookmarks.{HaveUtf8Texts};
ghost use Rattle.hm_marks_schema.specs.Nesting.{nesting};
ghost use Rattle.hm_marks_trees.specs.Nodes.{plain, contents, view};
ghost use Rattle.hm_marks_trees.specs.Trees.{AreOver, item_nesting, HasUtf8Texts, HasDepthOf, IsDepthOf};

use crate::node::Node;
use hm_book_items::depth_of_items;
use hm_marks_schema::MOST_FOLDERS;
use hm_tree::{DEEPEST, Memory, Name};
use std::alloc::Global;

/// What would be over the limits of a tree of these nodes: how many folders nest, if too many do, and else how deep it is.
pub fn over_limits(alloc: Global, bar: &[Node], other: &[Node]) -> Result<Option<usize>, Memory>
    ensures { IfOk result (AreOver (contents bar.now) (contents other.now)) }
{
    let nested = nested_in(bar)?.max(nested_in(other)?);
    if nested > MOST_FOLDERS {
        return Ok(Some(nested));
    }
    let deepest = depth_of(alloc, bar)?.max(depth_of(alloc, other)?);
    let depth = one_more(deepest)?;
    Ok(if depth > DEEPEST { Some(depth) } else { None })
}

// How many folders nest in nodes.
#[cycle(nesting)]
fn nested_in(nodes: &[Node]) -> Result<usize, Memory>
    ensures nesting { IfOk result (λ count. count ≡ nesting (contents nodes.now)) }
    ensures texts { OnOk result (HaveUtf8Texts plain (contents nodes.now)) }
{
    let mut most = 0;
    for node in nodes {
        most = nested_at(node)?.max(most);
    }
    Ok(most)
}

// How many folders nest in a folder, and that one; none in a link.
#[cycle(nesting)]
fn nested_at(node: &Node) -> Result<usize, Memory>
    ensures nesting { IfOk result (λ count. count ≡ item_nesting (view node.now)) }
    ensures texts { OnOk result (HasUtf8Texts (view node.now)) }
{
    match node {
        Node::Link(key, address) => {
            let _key = key.text();
            let _address = address.text();
            Ok(0)
        }
        Node::Folder(key, inside) => {
            let _key = key.text();
            one_more(nested_in(inside)?)
        }
    }
}

// How deep the tree of nodes will be.
#[cycle(depths)]
fn depth_of(alloc: Global, nodes: &[Node]) -> Result<usize, Memory>
    ensures { IfOk result (IsDepthOf (contents nodes.now)) }
{
    let mut depths = Vec::with_capacity(alloc, nodes.len())?;
    for node in nodes {
        depths.push(depth_at(alloc, node)?)?;
    }
    depth_of_items(depths)
}

// The key of a node, and how deep its tree will be.
#[cycle(depths)]
fn depth_at(alloc: Global, node: &Node) -> Result<(Name, usize), Memory>
    ensures { IfOk result (HasDepthOf (view node.now)) }
{
    match node {
        Node::Link(key, _) => Ok((key.copy()?, 2)),
        Node::Folder(key, inside) => {
            let depth = one_more(depth_of(alloc, inside)?)?;
            Ok((key.copy()?, depth))
        }
    }
}

// A number that is one more. One that isn't a number of a machine is of no tree that memory can hold.
fn one_more(number: usize) -> Result<usize, Memory>
    ensures { IfOk result (λ more. more ≡ number + 1) }
{
    number.checked_add(1).ok_or(Memory)
}
