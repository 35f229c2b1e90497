//! The parents of paths that come and go.
ghost use Rattle.std.specs.Prelude.{◌≡◌, ◌++◌, IfOk, OnOk};
ghost use Rattle.hm_tree.specs.PathOrder.{path_cmp};
ghost use Rattle.hm_changes_alike.specs.Parents.{parent, parents_in, lent_paths, AreOnceEach};

use hm_changes::Change;
use hm_tree::{Memory, Name};
use std::alloc::Global;
use std::cmp::Ordering;

// How two paths stand to each other in the order of paths.
fn order(one: &[Name], other: &[Name]) -> Ordering
    ensures { result ≡ path_cmp one.now other.now }
{
    one.cmp(other)
}

// The parent of a path that comes or goes.
fn parent_of(change: &Change) -> &[Name]
    ensures { result.now ≡ parent change.now.path }
{
    let names = change.path.names.as_slice();
    &names[..names.len().saturating_sub(1)]
}

// Puts the parents of paths that come and go behind others.
fn append_parents<'a>(changes: &'a [Change], parents: &mut Vec<&'a [Name]>) -> Result<(), Memory>
    ensures { OnOk result (lent_paths parents.new.items ≡ lent_paths parents.old.items ++ parents_in changes.now) }
{
    for change in changes {
        parents.push(parent_of(change))?;
    }
    Ok(())
}

// The paths, in their order and each once.
fn once_each<'a>(mut paths: Vec<&'a [Name]>) -> Result<Vec<&'a [Name]>, Memory>
    ensures { IfOk result (λ sorted. AreOnceEach (lent_paths paths.entry.items) (lent_paths sorted.items)) }
{
    paths.sort_by(|one, two| order(one, two))?;
    paths.dedup_by(|one, two| order(one, two).is_eq());
    Ok(paths)
}

/// The parents of the paths that come and go on two sides, in their order and each once.
pub fn parents_of<'a>(
    alloc: Global,
    left: &'a [Change],
    right: &'a [Change],
) -> Result<Vec<&'a [Name]>, Memory>
    ensures { IfOk result (λ paths. AreOnceEach (parents_in left.now ++ parents_in right.now) (lent_paths paths.items)) }
{
    let mut paths = Vec::new(alloc);
    append_parents(left, &mut paths)?;
    append_parents(right, &mut paths)?;
    once_each(paths)
}
