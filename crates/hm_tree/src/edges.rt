//! Edges in the order of their names.
ghost use Rattle.std.specs.Prelude.{◌≡◌, ◌≤◌, T, IfOk, IfErr, OnOk, OnErr, IsTrue, length};
ghost use Rattle.std.specs.List.{insert};
ghost use Rattle.std.specs.FinMap.{is_sorted, find};
ghost use Rattle.std.specs.declared.cmp.Ordering.TheVariants.{Less};
ghost use Rattle.hm_tree.specs.Names.{name_cmp, Name as NameValue};
ghost use Rattle.hm_tree.specs.Edges.{IsPlaceOf, IsGapFor};

use crate::memory::Memory;
use crate::name::Name;
use std::cmp::Ordering;
use std::collections::VecDeque;

/// Where a name is, or where it would go.
pub fn place_of<V>(edges: &[(Name, V)], name: &Name) -> Result<usize, usize>
    requires { T (is_sorted name_cmp edges.now) }
    ensures found { IfOk result (IsPlaceOf name.now edges.now) }
    ensures absent { IfErr result (IsGapFor name.now edges.now) }
{
    if is_past(edges, name) {
        return Err(edges.len());
    }
    edges.binary_search_by(|edge| edge.0.order(name))
}

/// The same, looked for at a place first.
pub fn place_near<V>(edges: &[(Name, V)], name: &Name, near: usize) -> Result<usize, usize>
    requires { T (is_sorted name_cmp edges.now) }
    ensures found { IfOk result (IsPlaceOf name.now edges.now) }
    ensures absent { IfErr result (IsGapFor name.now edges.now) }
{
    if near < edges.len() && edges[near].0.same(name) {
        return Ok(near);
    }
    place_of(edges, name)
}

// Whether a name is greater than the last one, as each is where names come in ascending order.
fn is_past<V>(edges: &[(Name, V)], name: &Name) -> bool
    requires { T (is_sorted name_cmp edges.now) }
    ensures { IsTrue result → IsGapFor name.now edges.now (length edges.now) }
{
    match edges.last() {
        Some(last) => last.0.order(name).is_lt(),
        None => false,
    }
}

/// Puts an edge in at a place.
pub fn insert_edge<V: Drop>(
    edges: &mut Vec<(Name, V)>,
    at: usize,
    name: Name,
    child: V,
) -> Result<(), Memory>
    requires { at ≤ length edges.old.items }
    ensures ok { OnOk result (edges.new.items ≡ insert edges.old.items at (name, child)) }
    ensures err { OnErr result (edges.new.items ≡ edges.old.items) }
{
    // Many nodes have one edge, and a vector that grows by itself would make room for several.
    if edges.is_empty() {
        edges.reserve_exact(1)?;
    }
    edges.insert(at, (name, child))?;
    Ok(())
}

/// Takes what stands under a name out of the edges that are left, and those before it; none where it isn't among them.
pub fn take_under<V: Drop>(rest: &mut VecDeque<(Name, V)>, name: &Name) -> Option<V>
    requires { T (is_sorted name_cmp rest.old.items) }
    ensures taken { result ≡ find name_cmp name.now rest.old.items }
    ensures later { (k : NameValue) → name_cmp name.now k ≡ Less → find name_cmp k rest.new.items ≡ find name_cmp k rest.old.items }
    ensures sorted { T (is_sorted name_cmp rest.new.items) }
{
    while let Some(first) = rest.front() {
        match first.0.order(name) {
            Ordering::Less => {
                rest.pop_front();
            }
            Ordering::Equal => match rest.pop_front() {
                Some((_, under)) => return Some(under),
                None => break,
            },
            Ordering::Greater => break,
        }
    }
    None
}
