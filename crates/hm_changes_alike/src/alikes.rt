//! The sets of alike names, below the parents of what comes and goes.
ghost use Rattle.std.specs.Prelude.{◌≡◌, ◌++◌, Some, IfOk, OnOk};
ghost use Rattle.std.specs.FinSet as set;
ghost use Rattle.hm_tree.specs.Names.{name_cmp};
ghost use Rattle.hm_tree.specs.States.{state};
ghost use Rattle.hm_changes.specs.Changes.{AreChanges};
ghost use Rattle.hm_alike.specs.Groups.{lent, lent_lists};
ghost use Rattle.hm_changes_alike.specs.Alikes.{AreAlikes};
ghost use Rattle.hm_changes_alike.specs.Staying.{seen};
ghost use Rattle.hm_changes_alike.specs.Below.{is_told_at, is_told, told_sets, AddsAlikes, renewal};

use crate::parents::parents_of;
use crate::shown::names_of;
use crate::views::{Views, edges_shown, turns_at, views_at};
use hm_alike::classes;
use hm_changes::Change;
use hm_tree::{Memory, Name, NameSet, Path};
use std::alloc::Global;

/// Names below a path that are probably one thing under several.
#[derive(Drop)]
pub struct AlikeNames {
    pub parent: Path,
    pub names: NameSet,
}

// Whether a name comes or goes on a side.
fn turns(left: Option<Views<'_>>, right: Option<Views<'_>>, name: &Name) -> bool
    ensures { result ≡ is_told_at (seen left.entry) (seen right.entry) name.now }
{
    turns_at(left, name) || turns_at(right, name)
}

// Whether one of some names comes or goes on a side.
fn is_told(left: Option<Views<'_>>, right: Option<Views<'_>>, names: &[&Name]) -> bool
    ensures { result ≡ is_told (seen left.entry) (seen right.entry) (lent names.now) }
{
    names.iter().any(|name| turns(left, right, name))
}

// The path with copies of these names.
fn path_of(alloc: Global, path: &[Name]) -> Result<Path, Memory>
    ensures { IfOk result (λ copy. copy ≡ path.now) }
{
    let mut names = Vec::with_capacity(alloc, path.len())?;
    for name in path {
        names.push(name.copy()?)?;
    }
    Ok(Path { names })
}

// The set of copies of these names.
fn set_of(alloc: Global, class: &[&Name]) -> Result<NameSet, Memory>
    ensures { IfOk result (λ names. names ≡ set.from_list {R = name_cmp} (lent class.now)) }
{
    let mut names = Vec::with_capacity(alloc, class.len())?;
    for name in class {
        names.push(name.copy()?)?;
    }
    NameSet::from_list(names)
}

// Puts the sets of the classes of which a name comes or goes behind others.
fn append_told(
    left: Option<Views<'_>>,
    right: Option<Views<'_>>,
    parent: &[Name],
    classes: &Vec<Vec<&Name>>,
    sets: &mut Vec<AlikeNames>,
) -> Result<(), Memory>
    ensures { OnOk result (sets.new.items ≡ sets.old.items ++ told_sets (seen left.entry) (seen right.entry) parent.now (lent_lists classes.now.items)) }
{
    let alloc = *classes.allocator();
    for class in classes {
        if is_told(left, right, class) {
            sets.push(AlikeNames {
                parent: path_of(alloc, parent)?,
                names: set_of(alloc, class)?,
            })?;
        }
    }
    Ok(())
}

// Puts the sets below a path behind others.
fn append_below(
    alloc: Global,
    left: Views<'_>,
    right: Views<'_>,
    parent: &[Name],
    sets: &mut Vec<AlikeNames>,
) -> Result<(), Memory>
    ensures { OnOk result (AddsAlikes (renewal left.entry) (renewal right.entry) parent.now sets.old.items sets.new.items) }
{
    let left = views_at(left, parent);
    let right = views_at(right, parent);
    let names = names_of(alloc, edges_shown(left), edges_shown(right))?;
    let classes = classes(alloc, &names)?;
    append_told(left, right, parent, &classes, sets)
}

/// The sets of names below one path that are probably one thing under several and of which one at least comes or goes on a
/// side, in the order of their parents, and below one parent of their first names.
pub fn alikes_of(
    alloc: Global,
    left: Views<'_>,
    right: Views<'_>,
    left_changes: &[Change],
    right_changes: &[Change],
) -> Result<Vec<AlikeNames>, Memory>
    requires left { AreChanges (state (Some left.old.now)) (state (Some left.new.now)) left_changes.now }
    requires right { AreChanges (state (Some right.old.now)) (state (Some right.new.now)) right_changes.now }
    ensures { IfOk result (λ sets. AreAlikes (record { old = state (Some left.entry.old.now); new = state (Some left.entry.new.now) }) (record { old = state (Some right.entry.old.now); new = state (Some right.entry.new.now) }) sets.items) }
{
    let mut sets = Vec::new(alloc);
    for parent in &parents_of(alloc, left_changes, right_changes)? {
        append_below(alloc, left, right, parent, &mut sets)?;
    }
    Ok(sets)
}
