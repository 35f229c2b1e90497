//! That sets are told where there is memory.

use crate::{Views, alikes_of};
use hm_changes::changes_of;
use hm_tree::{Memory, Name, Tree};
use std::alloc::Global;
use std::test::Fail;

// The tree with a subtree more under a name that it lacks.
fn with(alloc: Global, mut tree: Tree, name: &str, child: Tree) -> Result<Tree, Memory> {
    let name = Name::from_text(alloc, name)?;
    if tree.child(&name).is_none() {
        tree.insert(name, child)?;
    }
    Ok(tree)
}

// The tree with these names at its root, and nothing below them.
fn leaves(alloc: Global, names: &[&str]) -> Result<Tree, Memory> {
    let mut tree = Tree::empty(alloc);
    for name in names {
        tree = with(alloc, tree, *name, Tree::empty(alloc))?;
    }
    Ok(tree)
}

// A side with these people, and two places that are alike.
fn side(alloc: Global, people: &[&str]) -> Result<Tree, Memory> {
    let tree = with(alloc, Tree::empty(alloc), "people", leaves(alloc, people)?)?;
    with(alloc, tree, "places", leaves(alloc, &["Rome", "rome"])?)
}

#[test]
fn one_set(rt: HostRuntime) -> Result<(), Fail> {
    let alloc = rt.alloc();
    let left_old = side(alloc, &["Bob", "EVE", "eve"])?;
    let left_new = side(alloc, &["Bob", "EVE", "bob ", "eve"])?;
    let right_old = side(alloc, &["bob ", "dan"])?;
    let right_new = side(alloc, &["Bob", "bob ", "dan"])?;
    let left = changes_of(alloc, &left_old, &left_new)?;
    let right = changes_of(alloc, &right_old, &right_new)?;
    let (left_views, right_views) = (
        Views {
            old: &left_old,
            new: &left_new,
        },
        Views {
            old: &right_old,
            new: &right_new,
        },
    );
    let mut told = String::new(alloc);
    for set in &alikes_of(alloc, left_views, right_views, &left, &right)? {
        for name in &set.parent.names {
            told.push_str(name.text())?;
            told.push('/')?;
        }
        for name in set.names.names() {
            told.push('<')?;
            told.push_str(name.text())?;
            told.push('>')?;
        }
        told.push('.')?;
    }
    assert_eq!(rt; told.as_str(), "people/<Bob><bob >.");
    Ok(())
}
