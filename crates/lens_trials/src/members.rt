//! The trees of files.
ghost use Rattle.std.specs.Prelude.{IfOk, All};
ghost use Rattle.hm_schema.specs.Membership.{IsMemberTree};

use hm_outside::{Loaded, Store};
use hm_schema::Schema;
use hm_tree::{Memory, Name, Tree};
use hm_tree_text::read_tree;
use std::alloc::Global;

/// The bytes of a file.
pub fn load<S: Store>(store: &mut S, name: &Name) -> Result<Vec<u8>, Memory> {
    match store.load(name, 67_108_864) {
        Loaded::Bytes(bytes) => Ok(bytes),
        _ => Err(Memory),
    }
}

/// The tree of a file.
pub fn tree_of<S: Store>(alloc: Global, store: &mut S, name: &Name) -> Result<Tree, Memory> {
    let bytes = load(store, name)?;
    match read_tree(alloc, &bytes) {
        Ok(tree) => Ok(tree),
        Err(_) => Err(Memory),
    }
}

/// The trees of files, those of them that are members of a schema.
pub fn members<S: Store>(
    alloc: Global,
    store: &mut S,
    schema: &Schema,
    names: &[Name],
) -> Result<Vec<Tree>, Memory>
    ensures { IfOk result (λ trees. All (IsMemberTree schema.now) trees.items) }
{
    let mut trees = Vec::new(alloc);
    for name in names {
        let tree = tree_of(alloc, store, name)?;
        if schema.member(&tree) {
            trees.push(tree)?;
        }
    }
    Ok(trees)
}
