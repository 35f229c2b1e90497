//! Edges of two nodes in one order.
ghost use Rattle.std.specs.Prelude.{◌≡◌, [], T, IfOk, MatchOption};
ghost use Rattle.hm_tree.specs.Nodes.{are_edges};
ghost use Rattle.hm_tree.specs.Merging.{leads, AreOver, IsLeast, HaveNoCommon, AreMerged};

use crate::memory::Memory;
use crate::name::Name;
use crate::tree::Tree;
use std::collections::VecDeque;

/// The edges of two nodes that have no common name, as those of one.
pub fn merge(one: Vec<(Name, Tree)>, two: Vec<(Name, Tree)>) -> Result<Vec<(Name, Tree)>, Memory>
    requires one { T (are_edges one.items) }
    requires two { T (are_edges two.items) }
    requires apart { HaveNoCommon one.items two.items }
    ensures { IfOk result (λ edges. AreMerged one.items two.items edges.items) }
{
    let alloc = *one.allocator();
    let mut merged = Vec::with_capacity(alloc, one.len() + two.len())?;
    let mut ones = VecDeque::from(one);
    let mut twos = VecDeque::from(two);
    while let Some(edge) = take_least(&mut ones, &mut twos) {
        merged.push(edge)?;
    }
    Ok(merged)
}

// Takes the edge with the least name out of two lists.
fn take_least(
    ones: &mut VecDeque<(Name, Tree)>,
    twos: &mut VecDeque<(Name, Tree)>,
) -> Option<(Name, Tree)>
    requires ones { T (are_edges ones.old.items) }
    requires twos { T (are_edges twos.old.items) }
    requires apart { HaveNoCommon ones.old.items twos.old.items }
    ensures { MatchOption result (AreOver ones.old.items twos.old.items) (IsLeast ones.old.items twos.old.items ones.new.items twos.new.items) }
{
    if is_led(ones, twos) {
        ones.pop_front()
    } else {
        twos.pop_front()
    }
}

// Whether the least name of two lists is in front of the first one.
fn is_led(ones: &VecDeque<(Name, Tree)>, twos: &VecDeque<(Name, Tree)>) -> bool
    ensures { result ≡ leads ones.now.items twos.now.items }
{
    match (ones.front(), twos.front()) {
        (Some(one), Some(two)) => one.0.order(&two.0).is_lt(),
        (Some(_), None) => true,
        (None, _) => false,
    }
}
