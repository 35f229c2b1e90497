//! Two lists of names and nodes, laid over one another.
ghost use Rattle.std.specs.Prelude.{◌≡◌, ◌++◌, IfOk, length, filter};
ghost use Rattle.std.specs.List.{zip};
ghost use Rattle.std.specs.List.Sorted.{IsStrictlySortedBy};
ghost use Rattle.std.specs.FinMap.{find};
ghost use Rattle.std.specs.FinSet.{contains, from_list};
ghost use Rattle.hm_tree.specs.Names.{Name as NameValue, name_cmp};
ghost use Rattle.hm_types_views.specs.Overlays.{overlay};

use hm_schema::NodeId;
use hm_tree::{Memory, Name, NameSet};
use hm_types_table::beside;
use std::alloc::Global;

/// The names of two lists in ascending order, and the node of each: of the first list those count that are in a set.
pub fn overlaid(
    alloc: Global,
    names: &NameSet,
    ones: &[Name],
    one_next: &[NodeId],
    twos: &[Name],
    two_next: &[NodeId],
) -> Result<(Vec<Name>, Vec<NodeId>), Memory>
    requires ones { IsStrictlySortedBy name_cmp ones.now }
    requires twos { IsStrictlySortedBy name_cmp twos.now }
    requires one_count { length one_next.now ≡ length ones.now }
    requires two_count { length two_next.now ≡ length twos.now }
    ensures rises { IfOk result (λ r. IsStrictlySortedBy name_cmp r.0.items) }
    ensures count { IfOk result (λ r. length r.1.items ≡ length r.0.items) }
    ensures leads { IfOk result (λ r. (k : NameValue) → find name_cmp k (zip r.0.items r.1.items) ≡ overlay names.now (zip ones.now one_next.now) (zip twos.now two_next.now) k) }
{
    let all = both(alloc, names, ones, twos)?.into_names();
    let mut next = Vec::new(alloc);
    for name in &all {
        match laid(names, ones, one_next, twos, two_next, name) {
            Some(node) => next.push(node)?,
            None => unreachable!(),
        }
    }
    Ok((all, next))
}

// The names of the first list that are in a set, and the names of the second.
fn both(alloc: Global, names: &NameSet, ones: &[Name], twos: &[Name]) -> Result<NameSet, Memory>
    ensures { IfOk result (λ s. s ≡ from_list (filter (λ k. contains names.now k) ones.now ++ twos.now)) }
{
    let mut all = Vec::new(alloc);
    for one in ones {
        if names.has(one) {
            all.push(one.copy()?)?;
        }
    }
    for two in twos {
        all.push(two.copy()?)?;
    }
    Ok(NameSet::from_list(all)?)
}

// What a name leads to.
fn laid(
    names: &NameSet,
    ones: &[Name],
    one_next: &[NodeId],
    twos: &[Name],
    two_next: &[NodeId],
    name: &Name,
) -> Option<NodeId>
    requires ones { IsStrictlySortedBy name_cmp ones.now }
    requires twos { IsStrictlySortedBy name_cmp twos.now }
    requires one_count { length one_next.now ≡ length ones.now }
    requires two_count { length two_next.now ≡ length twos.now }
    ensures { result ≡ overlay names.now (zip ones.now one_next.now) (zip twos.now two_next.now) name.now }
{
    if !names.has(name) {
        return beside(twos, two_next, name);
    }
    match beside(ones, one_next, name) {
        Some(node) => Some(node),
        None => beside(twos, two_next, name),
    }
}
