//! Lenses that put a name in place of another, as most columns of a table have. A tree isn't taken apart for them.
ghost use Rattle.std.specs.Prelude.{◌≡◌, MatchOption, IfOk, IsSome, None};
ghost use Rattle.hm_tree.specs.Names.{Name as NameValue};
ghost use Rattle.hm_tree.specs.Nodes.{below, without_edge};
ghost use Rattle.hm_terms.specs.Programs.{lens_of};
ghost use Rattle.hm_eval_terms.specs.Renaming.{IsRenaming, IsRenamed};

use hm_terms::Term;
use hm_tree::{Memory, Name, Tree};

/// The name that a lens takes away and the one that it shows instead; none where this isn't all that it does.
pub fn renaming(lens: &Term) -> Option<(&Name, &Name)>
    ensures { MatchOption result ((m n : NameValue) → ¬ (IsRenaming (lens_of lens.now) m n)) (λ names. IsRenaming (lens_of lens.now) names.0.now names.1.now) }
{
    let Term::Fork {
        inside,
        outside,
        ..
    } = lens
    else {
        return None;
    };
    let (Term::Seq(first, second), Term::Id) = (&**inside, &**outside) else {
        return None;
    };
    match (&**first, &**second) {
        (Term::Hoist(from), Term::Plunge(to)) => Some((from, to)),
        _ => None,
    }
}

/// A tree with what stands under a name under another one, which is free then.
pub fn renamed(tree: Tree, from: &Name, to: &Name) -> Result<Tree, Memory>
    requires there { IsSome (below from.now tree) }
    requires free { below to.now (without_edge from.now tree) ≡ None }
    ensures { IfOk result (IsRenamed from.now to.now tree) }
{
    let mut tree = tree;
    let Some(child) = tree.without(from) else {
        unreachable!();
    };
    tree.insert(to.copy()?, child)?;
    Ok(tree)
}
