//! The children of a tree, each with the lens that it goes through.
ghost use Rattle.std.specs.Prelude.{Option, T, IfOk, cond, is_some, ◌≡◌, option_copied};
ghost use Rattle.hm_tree.specs.Archives.{under};
ghost use Rattle.std.specs.FinMap.{is_sorted};
ghost use Rattle.hm_tree.specs.Names.{Name as NameValue, name_cmp};
ghost use Rattle.hm_tree.specs.Nodes.{Tree as TreeValue};
ghost use Rattle.hm_terms.specs.Lenses.{Lens, lens_at};
ghost use Rattle.hm_terms.specs.Programs.{lens_of, lenses_of};
ghost use Rattle.hm_eval_terms.specs.Children.{AreChildren, AreChildrenBy, given};
ghost use Rattle.hm_eval_terms.specs.Terms.{option_lens};

use hm_terms::Term;
use hm_tree::{Memory, Name, Tree, place_of};

/// A child of a tree, and the lens that it goes through; none where it stays as it is.
#[derive(Drop)]
pub struct Child<'a> {
    pub tree: Tree,
    pub lens: Option<&'a Term>,
}

/// The children of a tree, with the lenses that a lens on children has for them.
pub fn children<'a>(term: &'a Term, tree: Tree) -> Result<Vec<(Name, Child<'a>)>, Memory>
    ensures { IfOk result (λ es. AreChildren (lens_of term.now) tree es.items) }
{
    match term {
        Term::Map(lens) => Ok(with_lens(Some(lens), tree)?),
        Term::Each(terms) => Ok(with_named(terms, tree)?),
        _ => Ok(with_lens(None, tree)?),
    }
}

// The children of a tree, each with the same lens.
fn with_lens<'a>(lens: Option<&'a Term>, tree: Tree) -> Result<Vec<(Name, Child<'a>)>, Memory>
    ensures { IfOk result (λ es. AreChildrenBy (λ _. option_lens lens.entry) tree es.items) }
{
    let mut children = Vec::with_capacity(tree.allocator(), tree.count())?;
    for (name, tree) in tree.into_edges() {
        children.push((name, Child { tree, lens }))?;
    }
    Ok(children)
}

// The children of a tree, each with the lens that is named as it is. The first one of a name counts: it comes last.
fn with_named<'a>(terms: &'a [(Name, Term)], tree: Tree) -> Result<Vec<(Name, Child<'a>)>, Memory>
    ensures { IfOk result (λ es. AreChildrenBy (λ n. lens_at n (lenses_of terms.now)) tree es.items) }
{
    let mut children = with_lens(None, tree)?;
    for at in (0..terms.len()).rev() {
        give(&mut children, &terms[at].0, &terms[at].1);
    }
    Ok(children)
}

// Gives the child of a name its lens.
fn give<'a>(children: &mut Vec<(Name, Child<'a>)>, name: &Name, lens: &'a Term)
    requires { T (is_sorted name_cmp children.old.items) }
    ensures { (by : NameValue → Option Lens) (t : TreeValue) → AreChildrenBy by t children.old.items → AreChildrenBy (given name.now (lens_of lens.now) by) t children.new.items }
{
    if let Ok(place) = place_of(children, name) {
        children[place].1.lens = Some(lens);
    }
}

/// The first of two lenses where a tree has a name, and the second where it hasn't, or where there is no tree.
pub fn chosen<'a>(tree: Option<&Tree>, name: &Name, yes: &'a Term, no: &'a Term) -> &'a Term
    ensures { lens_of result.now ≡ cond (is_some (under name.now (option_copied tree.entry))) (lens_of yes.now) (lens_of no.now) }
{
    if has(tree, name) { yes } else { no }
}

/// Whether there is a tree, and it has a name.
pub fn has(tree: Option<&Tree>, name: &Name) -> bool
    ensures { result ≡ is_some (under name.now (option_copied tree.entry)) }
{
    match tree {
        Some(tree) => tree.child(name).is_some(),
        None => false,
    }
}
