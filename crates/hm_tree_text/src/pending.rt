//! Pending edges: those of the nodes whose second brace hasn't come, the innermost node's last. One vector holds them
//! all, so that each node gets its own in one step, once the number of its edges is known.
ghost use Rattle.std.specs.Prelude.{◌≡◌, ◌↔◌, ◌≤◌, T, IfOk, OnOk, length, take, drop, ◌++◌, ◌∷◌, [], option_copied};
ghost use Rattle.hm_tree.specs.Names.{Name as NameValue};
ghost use Rattle.hm_tree_text.specs.Reading.{IsAfter, is_behind};
ghost use Rattle.hm_tree_text.specs.Pending.{valued_edges, MakeNode};

use crate::built::Built;
use hm_tree::{Memory, Name};
use std::mem;

/// The last name among the edges from a place on: a name that comes behind it comes behind them all.
pub fn last_name<B: Built>(pending: &[(Name, B)], start: usize) -> Option<&Name>
    requires place { start ≤ length pending.now }
    requires before { MakeNode B.value (drop start pending.now) }
    ensures { (name : NameValue) → T (is_behind name (valued_edges B.value (drop start pending.now))) ↔ IsAfter (option_copied result) name }
{
    match pending[start..].last() {
        Some(edge) => Some(&edge.0),
        None => None,
    }
}

/// Puts an edge behind all others.
pub fn add_edge<B: Built>(pending: &mut Vec<(Name, B)>, name: Name, child: B) -> Result<(), Memory>
    ensures { OnOk result (pending.new.items ≡ pending.old.items ++ (name, child) ∷ []) }
{
    pending.push((name, child))?;
    Ok(())
}

/// Takes out the edges from a place on, with no more room than they need. Where no others are pending, as at the end
/// of the outermost node, they aren't moved: they keep their vector, and those to come get a new one.
pub fn take_edges<B: Built>(
    pending: &mut Vec<(Name, B)>,
    start: usize,
) -> Result<Vec<(Name, B)>, Memory>
    requires { start ≤ length pending.old.items }
    ensures taken { IfOk result (λ edges. edges.items ≡ drop start pending.old.items) }
    ensures left { OnOk result (pending.new.items ≡ take start pending.old.items) }
{
    if start > 0 {
        return Ok(pending.split_off(start)?);
    }
    let none = Vec::new(*pending.allocator());
    let mut edges = mem::replace(pending, none);
    edges.shrink_to_fit();
    Ok(edges)
}
