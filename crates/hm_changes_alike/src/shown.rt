//! The names that edges have.
ghost use Rattle.std.specs.Prelude.{T, IfOk, map};
ghost use Rattle.std.specs.FinMap.{is_sorted};
ghost use Rattle.hm_tree.specs.Names.{name_cmp};
ghost use Rattle.hm_changes_alike.specs.Shown.{AreUnited};

use hm_changes::take_next;
use hm_tree::{Memory, Name, Tree};
use std::alloc::Global;

/// The names that one of two lists of edges has, in their order and each once.
pub fn names_of<'a>(
    alloc: Global,
    mut ones: &'a [(Name, Tree)],
    mut others: &'a [(Name, Tree)],
) -> Result<Vec<&'a Name>, Memory>
    requires ones { T (is_sorted name_cmp ones.now) }
    requires others { T (is_sorted name_cmp others.now) }
    ensures { IfOk result (λ names. AreUnited ones.now others.now (map (λ n. n.now) names.items)) }
{
    let mut names = Vec::new(alloc);
    while let Some(taken) = take_next(ones, others) {
        names.push(taken.name)?;
        ones = taken.olds;
        others = taken.news;
    }
    Ok(names)
}
