//! The names of a list, grouped by their folded names.
ghost use Rattle.std.specs.Prelude.{◌≡◌, ◌<◌, ◌++◌, [], ◌∷◌, List, length, IfOk, OnOk};
ghost use Rattle.std.specs.List.Sorted.{IsStrictlySortedBy};
ghost use Rattle.hm_tree.specs.Names.{name_cmp, Name as NameValue};
ghost use Rattle.hm_alike.specs.Groups.{AreGroups, bytes_of, lent, lent_lists, with_name};

use crate::folding::fold;
use hm_tree::{Memory, Name};
use indexmap::IndexSet;
use std::alloc::Global;

/// The names that have each folded name, in the order of the first ones.
pub fn groups_of<'a>(alloc: Global, names: &[&'a Name]) -> Result<Vec<Vec<&'a Name>>, Memory>
    requires { IsStrictlySortedBy name_cmp (lent names.now) }
    ensures { IfOk result (λ groups. (texts : List NameValue) × AreGroups (lent names.now) texts (lent_lists groups.items)) }
{
    let mut texts = IndexSet::new(alloc);
    let mut groups = Vec::new(alloc);
    for name in names {
        add(alloc, &mut texts, &mut groups, *name)?;
    }
    Ok(groups)
}

// Puts a name behind those that have its folded name. The folded names stand in a set, and that of a group where the
// group stands.
fn add<'a>(
    alloc: Global,
    texts: &mut IndexSet<String>,
    groups: &mut Vec<Vec<&'a Name>>,
    name: &'a Name,
) -> Result<(), Memory>
    requires { length groups.old.items ≡ length texts.old.keys }
    ensures { (names : List NameValue) → IsStrictlySortedBy name_cmp (names ++ name.now ∷ []) → AreGroups names (bytes_of texts.old.keys) (lent_lists groups.old.items) → OnOk result (AreGroups (names ++ name.now ∷ []) (bytes_of texts.new.keys) (lent_lists groups.new.items)) }
{
    let (place, is_new) = texts.insert_full(fold(alloc, name)?)?;
    if is_new {
        push_alone(alloc, groups, name)
    } else {
        put(groups, place, name)
    }
}

// Puts a group of a name alone behind the others.
fn push_alone<'a>(
    alloc: Global,
    groups: &mut Vec<Vec<&'a Name>>,
    name: &'a Name,
) -> Result<(), Memory>
    ensures { OnOk result (lent_lists groups.new.items ≡ lent_lists groups.old.items ++ (name.now ∷ []) ∷ []) }
{
    let mut group = Vec::new(alloc);
    group.push(name)?;
    groups.push(group)?;
    Ok(())
}

// Puts a name behind those of the group at a place.
fn put<'a>(groups: &mut Vec<Vec<&'a Name>>, place: usize, name: &'a Name) -> Result<(), Memory>
    requires { place < length groups.old.items }
    ensures { OnOk result (lent_lists groups.new.items ≡ with_name (lent_lists groups.old.items) place name.now) }
{
    groups[place].push(name)?;
    Ok(())
}
