//! The terms that the derived lenses stand for.
ghost use Rattle.std.specs.Prelude.{◌≡◌, IfOk};
ghost use Rattle.hm_tree.specs.Nodes.{Tree};
ghost use Rattle.hm_terms.specs.Programs.{lens_of};
ghost use Rattle.hm_focal_terms.specs.Derived.{no_names_set, only, under_name, filter_lens, prune_lens, focus_lens, add_lens, rename_lens};
ghost use Rattle.hm_terms.specs.Lenses.{sequence, fork};

use hm_terms::Term;
use hm_tree::{Memory, Name, NameSet, Tree};
use std::alloc::Global;

fn no_names_set(alloc: Global) -> Result<NameSet, Memory>
    ensures { IfOk result (λ set. set ≡ no_names_set) }
{
    NameSet::from_list(Vec::new(alloc))
}

// The set of one name.
fn only(alloc: Global, name: &Name) -> Result<NameSet, Memory>
    ensures { IfOk result (λ set. set ≡ only name.now) }
{
    let mut names = Vec::new(alloc);
    names.push(name.copy()?)?;
    NameSet::from_list(names)
}

/// The tree with one edge.
pub fn under_name(alloc: Global, name: &Name, tree: Tree) -> Result<Tree, Memory>
    ensures { IfOk result (λ above. above ≡ under_name name.now tree) }
{
    let mut edges = Vec::new(alloc);
    edges.push((name.copy()?, tree))?;
    Tree::of_edges(edges)
}

// Two lenses one behind the other.
fn sequence(alloc: Global, first: Term, second: Term) -> Result<Term, Memory>
    ensures { IfOk result (λ term. lens_of term ≡ sequence (lens_of first) (lens_of second)) }
{
    Ok(Term::Seq(Box::new(alloc, first)?, Box::new(alloc, second)?))
}

// A lens on some names, and another on the others.
fn fork(
    alloc: Global,
    concrete: NameSet,
    shown: NameSet,
    inside: Term,
    outside: Term,
) -> Result<Term, Memory>
    ensures { IfOk result (λ term. lens_of term ≡ fork concrete shown (lens_of inside) (lens_of outside)) }
{
    Ok(Term::Fork {
        concrete,
        shown,
        inside: Box::new(alloc, inside)?,
        outside: Box::new(alloc, outside)?,
    })
}

/// The lens that shows the names of a set alone.
pub fn filter(alloc: Global, names: NameSet, default: Tree) -> Result<Term, Memory>
    ensures { IfOk result (λ term. lens_of term ≡ filter_lens names default) }
{
    let shown = names.copy()?;
    let outside = Term::Const {
        tree: Tree::empty(alloc),
        default,
    };
    fork(alloc, names, shown, Term::Id, outside)
}

/// The lens that shows all but a child, by the tree with that child's default alone.
pub fn prune(alloc: Global, name: &Name, default: Tree) -> Result<Term, Memory>
    ensures { IfOk result (λ term. (d : Tree) → default ≡ under_name name.now d → lens_of term ≡ prune_lens name.now d) }
{
    let inside = Term::Const {
        tree: Tree::empty(alloc),
        default,
    };
    fork(
        alloc,
        only(alloc, name)?,
        no_names_set(alloc)?,
        inside,
        Term::Id,
    )
}

/// The lens that shows a child alone.
pub fn focus(alloc: Global, name: Name, default: Tree) -> Result<Term, Memory>
    ensures { IfOk result (λ term. lens_of term ≡ focus_lens name default) }
{
    let first = filter(alloc, only(alloc, &name)?, default)?;
    sequence(alloc, first, Term::Hoist(name))
}

/// The lens that shows a further child.
pub fn add(alloc: Global, name: Name, tree: Tree) -> Result<Term, Memory>
    ensures { IfOk result (λ term. lens_of term ≡ add_lens name tree) }
{
    let shown = only(alloc, &name)?;
    let constant = Term::Const {
        tree,
        default: Tree::empty(alloc),
    };
    let inside = sequence(alloc, constant, Term::Plunge(name))?;
    fork(alloc, no_names_set(alloc)?, shown, inside, Term::Id)
}

/// The lens that shows a child under another name.
pub fn rename(alloc: Global, name: Name, shown: Name) -> Result<Term, Memory>
    ensures { IfOk result (λ term. lens_of term ≡ rename_lens name shown) }
{
    let concrete = only(alloc, &name)?;
    let view = only(alloc, &shown)?;
    let inside = sequence(alloc, Term::Hoist(name), Term::Plunge(shown))?;
    fork(alloc, concrete, view, inside, Term::Id)
}
