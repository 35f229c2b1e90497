//! The classes of names that are alike.
ghost use Rattle.std.specs.Prelude.{map, IfOk};
ghost use Rattle.std.specs.List.Sorted.{IsStrictlySortedBy};
ghost use Rattle.hm_tree.specs.Names.{name_cmp};
ghost use Rattle.hm_alike.specs.Alike.{AreClasses};

use crate::groups::groups_of;
use hm_tree::{Memory, Name};
use std::alloc::Global;

/// The classes of names that are alike, of names that ascend: each of two names at least, in their order, and the
/// classes in the order of their first names.
pub fn classes<'a>(alloc: Global, names: &[&'a Name]) -> Result<Vec<Vec<&'a Name>>, Memory>
    requires { IsStrictlySortedBy name_cmp (map (λ n. n.now) names.now) }
    ensures { IfOk result (λ classes. AreClasses (map (λ n. n.now) names.now) (map (λ c. map (λ n. n.now) c.items) classes.items)) }
{
    let mut groups = groups_of(alloc, names)?;
    groups.retain(|group| group.len() > 1);
    Ok(groups)
}
