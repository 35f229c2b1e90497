//! What lenses show.
ghost use Rattle.std.specs.Prelude.{IfOk, map};
ghost use Rattle.hm_terms.specs.Programs.{lens_of};
ghost use Rattle.hm_terms.specs.Shown.{Shows};
ghost use Rattle.hm_eval_terms.specs.Conditions.{IsShown};
ghost use Rattle.hm_eval_terms.specs.Terms.{setting_in, IsIndex};

use crate::bodies::body;
use crate::children::{children, chosen};
use crate::renaming::{renamed, renaming};
use crate::running::Run;
use crate::texts::show_text;
use hm_terms::Term;
use hm_tree::{Memory, Tree};
use hm_tree_parts::{into_child, into_items, list_build, under, with_copy, without_edge};

/// What a lens shows of a tree, by so many levels of recursion at most. Each kind of lens has its steps here, since
/// functions that call one another may not be lent text lenses of unknown types.
pub fn show(levels: u64, run: &Run, term: &Term, tree: Tree) -> Result<Tree, Memory>
    requires index { IsIndex run.now.definitions.now run.now.bodies.now }
    requires shown { IsShown (setting_in (map (λ b. meaning b) run.now.texts.now) run.now.definitions.now) (lens_of term.now) tree }
    ensures { IfOk result (Shows (setting_in (map (λ b. meaning b) run.now.texts.now) run.now.definitions.now) (lens_of term.now) tree) }
{
    if levels == 0 {
        return Err(Memory);
    }
    if let Some((from, to)) = renaming(term) {
        return renamed(tree, from, to);
    }
    match term {
        Term::Id => Ok(tree),
        Term::Const { tree: shown, .. } => Ok(shown.copy()?),
        Term::Hoist(_) => Ok(into_child(tree)),
        Term::Plunge(name) => Ok(under(name.copy()?, tree)?),
        Term::Copy(from, to) => Ok(with_copy(tree, from, to)?),
        Term::Merge(_, name) => Ok(without_edge(tree, name)),
        Term::Text(name) => show_text(run, name, &tree),
        Term::Call(name) => show(
            levels - 1,
            run,
            body(run.definitions, run.bodies, name),
            tree,
        ),
        Term::Seq(first, second) => {
            let middle = show(levels - 1, run, first, tree)?;
            show(levels - 1, run, second, middle)
        }
        Term::Fork {
            concrete,
            inside,
            outside,
            ..
        } => {
            let (within, without) = tree.into_parts(concrete)?;
            let one = show(levels - 1, run, inside, within)?;
            let two = show(levels - 1, run, outside, without)?;
            Ok(Tree::join(one, two)?)
        }
        Term::ByConcrete { name, yes, no } | Term::ByView { name, yes, no, .. } => {
            show(levels - 1, run, chosen(Some(&tree), name, yes, no), tree)
        }
        Term::List(inner) => {
            let mut views = Vec::new(tree.allocator());
            for item in into_items(tree)? {
                views.push(show(levels - 1, run, inner, item)?)?;
            }
            Ok(list_build(views)?)
        }
        Term::Map(_) | Term::Each(_) => {
            let mut edges = Vec::with_capacity(tree.allocator(), tree.count())?;
            for (name, child) in children(term, tree)? {
                let view = match child.lens {
                    Some(lens) => show(levels - 1, run, lens, child.tree)?,
                    None => child.tree,
                };
                edges.push((name, view))?;
            }
            Ok(Tree::of_edges(edges)?)
        }
    }
}
