//! Lists: an empty tree, or a tree with an item and a list of the others.
ghost use Rattle.std.specs.Prelude.{◌≡◌, IfOk, MatchOption};
ghost use Rattle.hm_tree_parts.specs.Lists.{IsNil, IsItem, IsList, HasItems};
ghost use Rattle.hm_tree_parts.specs.Lent.{lent};

use hm_tree::{Memory, Name, Tree};

/// The items of a list, in order, to be looked at.
pub fn lent_items<'a>(list: &'a Tree) -> Result<Vec<&'a Tree>, Memory>
    requires { IsList list.now }
    ensures { IfOk result (λ items. HasItems list.now (lent items.items)) }
{
    let mut items = Vec::new(list.allocator());
    let mut rest = list;
    while let Some((first, others)) = first_item(rest) {
        items.push(first)?;
        rest = others;
    }
    Ok(items)
}

/// Copies of the items of a list, in order.
pub fn list_items(list: &Tree) -> Result<Vec<Tree>, Memory>
    requires { IsList list.now }
    ensures { IfOk result (λ items. HasItems list.now items.items) }
{
    let lent = lent_items(list)?;
    let mut items = Vec::with_capacity(list.allocator(), lent.len())?;
    for item in &lent {
        items.push(item.copy()?)?;
    }
    Ok(items)
}

/// The items of a list, in order.
pub fn into_items(tree: Tree) -> Result<Vec<Tree>, Memory>
    requires { IsList tree }
    ensures { IfOk result (λ items. HasItems tree items.items) }
{
    let mut items = Vec::new(tree.allocator());
    let mut rest = tree;
    while let Some((item, others)) = take_first(rest) {
        items.push(item)?;
        rest = others;
    }
    Ok(items)
}

/// The list of these items.
pub fn list_build(items: Vec<Tree>) -> Result<Tree, Memory>
    ensures { IfOk result (λ tree. HasItems tree items.items) }
{
    let mut left = items;
    let mut tree = Tree::empty(*left.allocator());
    while let Some(item) = left.pop() {
        tree = put_first(item, tree)?;
    }
    Ok(tree)
}

// The first item of a list, and the list of the others; none where there is no item.
fn first_item(list: &Tree) -> Option<(&Tree, &Tree)>
    requires { IsList list.now }
    ensures { MatchOption result (IsNil list.now) (λ parts. IsItem parts.0.now parts.1.now list.now) }
{
    if list.count() == 0 {
        return None;
    }
    Some((list.edge(0).1, list.edge(1).1))
}

/// The first item of a list, and the list of the others; none where there is no item.
pub fn take_first(list: Tree) -> Option<(Tree, Tree)>
    requires { IsList list }
    ensures { MatchOption result (IsNil list) (λ parts. IsItem parts.0 parts.1 list) }
{
    let mut edges = list.into_edges();
    let (_, rest) = edges.pop()?;
    let Some((_, item)) = edges.pop() else {
        unreachable!();
    };
    Some((item, rest))
}

/// The list of an item and the items of a list.
pub fn put_first(item: Tree, list: Tree) -> Result<Tree, Memory>
    ensures { IfOk result (IsItem item list) }
{
    let alloc = list.allocator();
    let mut edges = Vec::with_capacity(alloc, 2)?;
    edges.push((Name::from_text(alloc, "*h")?, item))?;
    edges.push((Name::from_text(alloc, "*t")?, list))?;
    Ok(Tree::of_edges(edges)?)
}
