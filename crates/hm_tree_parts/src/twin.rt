//! A child shown under two names, and under one again.
ghost use Rattle.std.specs.Prelude.{◌≡◌, ◌↔◌, IfOk, IfSome, IsSome, IsTrue, MatchOption, None, Some, option_copied};
ghost use Rattle.hm_tree.specs.Nodes.{Tree as TreeValue, below, with_edge, without_edge as left_by};
ghost use Rattle.hm_tree_parts.specs.Twins.{MergedFrom};
ghost use Rattle.hm_tree_parts.specs.Twins.{HasBoth, IsCopied, IsMergedBack};

use hm_tree::{Memory, Name, Tree};

/// A tree with an edge more, to a copy of what stands under another name.
pub fn copy_edge(tree: &Tree, m: &Name, n: &Name) -> Result<Tree, Memory>
    requires there { IsSome (below m.now tree.now) }
    requires absent { below n.now tree.now ≡ None }
    ensures { IfOk result (IsCopied m.now n.now tree.now) }
{
    Ok(with_copy(tree.copy()?, m, n)?)
}

/// The same of a tree that isn't needed further.
pub fn with_copy(tree: Tree, m: &Name, n: &Name) -> Result<Tree, Memory>
    requires there { IsSome (below m.now tree) }
    requires absent { below n.now tree ≡ None }
    ensures { IfOk result (IsCopied m.now n.now tree) }
{
    let child = copied_child(&tree, m)?;
    let mut tree = tree;
    tree.insert(n.copy()?, child)?;
    Ok(tree)
}

/// A tree without the edge of a name.
pub fn drop_edge(tree: &Tree, n: &Name) -> Result<Tree, Memory>
    ensures { IfOk result (λ left. left ≡ left_by n.now tree.now) }
{
    Ok(without_edge(tree.copy()?, n))
}

/// The same of a tree that isn't needed further.
pub fn without_edge(tree: Tree, n: &Name) -> Tree
    ensures { result ≡ left_by n.now tree }
{
    let mut tree = tree;
    tree.without(n);
    tree
}

/// A view that shows one of two children, with the other one under the second name: the same again, or what stood there
/// before, where another tree stood there than under the first.
pub fn merge_back(shown: &Tree, m: &Name, n: &Name, before: Option<&Tree>) -> Result<Tree, Memory>
    requires there { IsSome (below m.now shown.now) }
    requires absent { below n.now shown.now ≡ None }
    requires before { IfSome before (λ tree. HasBoth m.now n.now tree.now) }
    ensures { IfOk result (IsMergedBack m.now n.now shown.now (option_copied before.entry)) }
{
    Ok(merge_into(shown.copy()?, m, n, copied(before)?)?)
}

/// The same of trees that aren't needed further.
pub fn merge_into(shown: Tree, m: &Name, n: &Name, before: Option<Tree>) -> Result<Tree, Memory>
    requires there { IsSome (below m.now shown) }
    requires absent { below n.now shown ≡ None }
    requires before { IfSome before (HasBoth m.now n.now) }
    ensures { IfOk result (IsMergedBack m.now n.now shown before) }
{
    let child = second_child(&shown, m, n, before)?;
    let mut tree = shown;
    tree.insert(n.copy()?, child)?;
    Ok(tree)
}

// What goes under the second name.
fn second_child(shown: &Tree, m: &Name, n: &Name, before: Option<Tree>) -> Result<Tree, Memory>
    requires there { IsSome (below m.now shown.now) }
    requires before { IfSome before (HasBoth m.now n.now) }
    ensures { IfOk result (λ child. IfSome (below m.now shown.now) (λ x. MergedFrom m.now n.now x before child)) }
{
    match other_child(m, n, before) {
        Some(child) => Ok(child),
        None => Ok(copied_child(shown, m)?),
    }
}

// What stood under the second name before, where another tree stood there than under the first.
fn other_child(m: &Name, n: &Name, before: Option<Tree>) -> Option<Tree>
    requires { IfSome before (HasBoth m.now n.now) }
    ensures { MatchOption result ((x : TreeValue) → MergedFrom m.now n.now x before x) (λ child. (x : TreeValue) → MergedFrom m.now n.now x before child) }
{
    let Some(mut tree) = before else {
        return None;
    };
    if has_twice(&tree, m, n) {
        return None;
    }
    tree.without(n)
}

// Whether the same stands under two names.
fn has_twice(tree: &Tree, m: &Name, n: &Name) -> bool
    requires { HasBoth m.now n.now tree.now }
    ensures { IsTrue result ↔ (below m.now tree.now ≡ below n.now tree.now) }
{
    let Some(one) = tree.child(m) else {
        unreachable!();
    };
    let Some(two) = tree.child(n) else {
        unreachable!();
    };
    one.same(two)
}

// A copy of what stands under a name.
fn copied_child(tree: &Tree, name: &Name) -> Result<Tree, Memory>
    requires { IsSome (below name.now tree.now) }
    ensures { IfOk result (λ child. below name.now tree.now ≡ Some child) }
{
    Ok(tree.child(name).unwrap().copy()?)
}

/// A copy of a tree that may be missing.
pub fn copied(tree: Option<&Tree>) -> Result<Option<Tree>, Memory>
    ensures { IfOk result (λ copy. copy ≡ option_copied tree.entry) }
{
    match tree {
        Some(tree) => Ok(Some(tree.copy()?)),
        None => Ok(None),
    }
}
