//! Trees with one edge.
ghost use Rattle.std.specs.Prelude.{◌≡◌, [], ◌∷◌, IfOk};
ghost use Rattle.hm_tree.specs.Nodes.{empty};
ghost use Rattle.hm_tree_parts.specs.Edges.{IsEdge, names};
ghost use Rattle.hm_tree_parts.specs.Edges.{HasEdge, HasOneEdge, children};

use hm_tree::{Memory, Name, Tree};
use std::alloc::Global;

/// What stands under the one name of a tree.
pub fn hoist(tree: &Tree, name: &Name) -> Result<Tree, Memory>
    requires { HasEdge name.now tree.now }
    ensures { IfOk result (λ child. IsEdge name.now child tree.now) }
{
    Ok(into_child(tree.copy()?))
}

/// What stands under the one name of a tree.
pub fn into_child(tree: Tree) -> Tree
    requires { HasOneEdge tree }
    ensures { children tree ≡ result ∷ [] }
{
    let Some((_, child)) = tree.into_edges().pop() else {
        unreachable!();
    };
    child
}

/// The tree with one edge, to a copy of a tree.
pub fn plunge(tree: &Tree, name: &Name) -> Result<Tree, Memory>
    ensures { IfOk result (IsEdge name.now tree.now) }
{
    Ok(under(name.copy()?, tree.copy()?)?)
}

/// The tree with one edge, to a tree.
pub fn under(name: Name, child: Tree) -> Result<Tree, Memory>
    ensures { IfOk result (IsEdge name child) }
{
    let _text = name.text();
    let mut edges = Vec::with_capacity(child.allocator(), 1)?;
    edges.push((name, child))?;
    Ok(Tree::of_edges(edges)?)
}

/// A value: the tree with one edge, under which nothing stands.
pub fn value(alloc: Global, name: Name) -> Result<Tree, Memory>
    ensures { IfOk result (IsEdge name empty) }
{
    Ok(under(name, Tree::empty(alloc))?)
}

/// The name of the one edge of a tree.
pub fn value_of(tree: &Tree) -> &Name
    requires { HasOneEdge tree.now }
    ensures { names tree.now ≡ result.now ∷ [] }
{
    tree.edge(0).0
}
