//! Names that rise, and the nodes beside them.
ghost use Rattle.std.specs.Prelude.{◌≡◌, ◌↔◌, IsTrue, IfOk, MatchOption, Some, false, length, slice_get};
ghost use Rattle.std.specs.List.{list_any, zip};
ghost use Rattle.std.specs.List.Sorted.{IsStrictlySortedBy};
ghost use Rattle.std.specs.Ordering.{eq_by_cmp};
ghost use Rattle.std.specs.FinMap.{find};
ghost use Rattle.std.specs.FinSet.{contains};
ghost use Rattle.hm_tree.specs.Names.{Name as NameValue, name_cmp};

use hm_schema::NodeId;
use hm_tree::{Memory, Name, NameSet};
use std::alloc::Global;

/// Where a name stands among names that rise.
pub fn place(names: &[Name], name: &Name) -> Option<usize>
    requires { IsStrictlySortedBy name_cmp names.now }
    ensures { MatchOption result (list_any (eq_by_cmp name_cmp name.now) names.now ≡ false) (λ i. slice_get names.now i ≡ Some name.now) }
{
    match names.binary_search_by(|other| other.order(name)) {
        Ok(place) => Some(place),
        Err(_) => None,
    }
}

/// Whether a name is among names that rise.
pub fn is_in(names: &[Name], name: &Name) -> bool
    requires { IsStrictlySortedBy name_cmp names.now }
    ensures { result ≡ list_any (eq_by_cmp name_cmp name.now) names.now }
{
    match place(names, name) {
        Some(_) => true,
        None => false,
    }
}

/// The node beside a name, among names that rise with a node beside each.
pub fn beside(names: &[Name], next: &[NodeId], name: &Name) -> Option<NodeId>
    requires rises { IsStrictlySortedBy name_cmp names.now }
    requires count { length next.now ≡ length names.now }
    ensures { result ≡ find name_cmp name.now (zip names.now next.now) }
{
    match place(names, name) {
        Some(place) => Some(next[place]),
        None => None,
    }
}

/// Whether each name of a set is in another set, or none is.
pub fn all_in(all: &NameSet, names: &NameSet, inside: bool) -> bool
    ensures { IsTrue result ↔ ((k : NameValue) → IsTrue (contains all.now k) → contains names.now k ≡ inside) }
{
    for name in all.names() {
        if names.has(name) != inside {
            return false;
        }
    }
    true
}

/// Whether each name of a set is among names that rise.
pub fn all_listed(all: &NameSet, names: &[Name]) -> bool
    requires { IsStrictlySortedBy name_cmp names.now }
    ensures { IsTrue result ↔ ((k : NameValue) → IsTrue (contains all.now k) → IsTrue (list_any (eq_by_cmp name_cmp k) names.now)) }
{
    for name in all.names() {
        if !is_in(names, name) {
            return false;
        }
    }
    true
}

/// Equal names.
pub fn copies(alloc: Global, names: &[Name]) -> Result<Vec<Name>, Memory>
    ensures { IfOk result (λ v. v.items ≡ names.now) }
{
    let mut copies = Vec::with_capacity(alloc, names.len())?;
    for name in names {
        copies.push(name.copy()?)?;
    }
    Ok(copies)
}
