//! Trees from before, which may be missing.
ghost use Rattle.std.specs.Prelude.{◌≡◌, T, IfOk, IfSome, cond, is_some};
ghost use Rattle.std.specs.FinMap.{find, is_sorted};
ghost use Rattle.hm_tree.specs.Archives.{under};
ghost use Rattle.hm_tree.specs.Names.{name_cmp, Name as NameValue};
ghost use Rattle.hm_tree_parts.specs.Lists.{IsList, head, tail};
ghost use Rattle.hm_terms.specs.Before.{with_name, without_name};
ghost use Rattle.hm_terms.specs.Put.{before_or};
ghost use Rattle.hm_eval_terms.specs.Conditions.{IsSplitBefore};

use hm_tree::{Memory, Name, NameSet, Tree};
use hm_tree_parts::take_first;
use std::alloc::Global;
use std::collections::VecDeque;

/// The tree from before, or a copy of another one.
pub fn before_else(before: Option<Tree>, default: &Tree) -> Result<Tree, Memory>
    ensures { IfOk result (λ tree. tree ≡ before_or default.now before) }
{
    match before {
        Some(tree) => Ok(tree),
        None => Ok(default.copy()?),
    }
}

/// Its edges with a name in a set, and the others.
pub fn parts_before(
    before: Option<Tree>,
    names: &NameSet,
) -> Result<(Option<Tree>, Option<Tree>), Memory>
    ensures { IfOk result (IsSplitBefore names.now before) }
{
    match before {
        Some(tree) => {
            let (inside, outside) = tree.into_parts(names)?;
            Ok((Some(inside), Some(outside)))
        }
        None => Ok((None, None)),
    }
}

/// The tree from before, where it has a name just if that is wanted.
pub fn before_where(before: Option<Tree>, name: &Name, wanted: bool) -> Option<Tree>
    ensures { result ≡ cond wanted (with_name name.now before) (without_name name.now before) }
{
    let Some(tree) = before else {
        return None;
    };
    if tree.child(name).is_some() == wanted {
        Some(tree)
    } else {
        None
    }
}

/// The first item of a list from before, and the list of the others.
pub fn item_before(before: Option<Tree>) -> (Option<Tree>, Option<Tree>)
    requires { IfSome before IsList }
    ensures first { result.0 ≡ under head before }
    ensures others { result.1 ≡ under tail before }
{
    let Some(list) = before else {
        return (None, None);
    };
    match take_first(list) {
        Some((item, rest)) => (Some(item), Some(rest)),
        None => (None, None),
    }
}

/// Its edges, in the order of their names.
pub fn edges_before(alloc: Global, before: Option<Tree>) -> VecDeque<(Name, Tree)>
    ensures sorted { T (is_sorted name_cmp result.items) }
    ensures under { (k : NameValue) → find name_cmp k result.items ≡ under k before }
{
    match before {
        Some(tree) => VecDeque::from_vec(tree.into_edges()),
        None => VecDeque::new(alloc),
    }
}
