//! What a new tree is to have: its keys, each with a number of items.
ghost use Rattle.std.specs.Prelude.{◌≡◌, ◌<◌, T, IsTrue, IfOk, IfErr, [], length, get_or};
ghost use Rattle.std.specs.FinMap.{is_sorted};
ghost use Rattle.hm_tree.specs.Names.{name_cmp};
ghost use Rattle.hm_tree.specs.Edges.{IsPlaceOf, IsGapFor};
ghost use Rattle.hm_book_items.specs.LentKeys.{lent_counts};

use hm_tree::Name;

/// Where a key is, or where it would go. A place near it, or the one behind that, is looked at first, since most files have
/// their items in the order of the keys.
pub fn place_near(wanted: &[(&Name, usize)], key: &Name, near: usize) -> Result<usize, usize>
    requires { T (is_sorted name_cmp (lent_counts wanted.now)) }
    ensures found { IfOk result (IsPlaceOf key.now (lent_counts wanted.now)) }
    ensures absent { IfErr result (IsGapFor key.now (lent_counts wanted.now)) }
{
    if is_at(wanted, key, near) {
        return Ok(near);
    }
    let behind = near.wrapping_add(1);
    if is_at(wanted, key, behind) {
        return Ok(behind);
    }
    place_of(wanted, key)
}

// Whether a key is at a place.
fn is_at(wanted: &[(&Name, usize)], key: &Name, place: usize) -> bool
    requires { T (is_sorted name_cmp (lent_counts wanted.now)) }
    ensures { IsTrue result → IsPlaceOf key.now (lent_counts wanted.now) place }
{
    place < wanted.len() && wanted[place].0.same(key)
}

// Where a key is, or where it would go.
fn place_of(wanted: &[(&Name, usize)], key: &Name) -> Result<usize, usize>
    requires { T (is_sorted name_cmp (lent_counts wanted.now)) }
    ensures found { IfOk result (IsPlaceOf key.now (lent_counts wanted.now)) }
    ensures absent { IfErr result (IsGapFor key.now (lent_counts wanted.now)) }
{
    wanted.binary_search_by(|edge| edge.0.order(key))
}

/// How many items the key at a place is to have.
pub fn count_at(wanted: &[(&Name, usize)], edge: usize) -> usize
    requires { edge < length (lent_counts wanted.now) }
    ensures { result ≡ (get_or (lent_counts wanted.now) edge ([], 0)).1 }
{
    wanted[edge].1
}
