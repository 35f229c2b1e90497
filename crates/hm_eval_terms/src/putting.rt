//! What lenses put.
ghost use Rattle.std.specs.Prelude.{IfOk, map};
ghost use Rattle.hm_terms.specs.Programs.{lens_of};
ghost use Rattle.hm_terms.specs.Put.{Puts};
ghost use Rattle.hm_eval_terms.specs.Conditions.{IsPut};
ghost use Rattle.hm_eval_terms.specs.Terms.{setting_in, IsIndex};

use crate::before::{before_else, before_where, edges_before, item_before, parts_before};
use crate::bodies::body;
use crate::children::{children, chosen, has};
use crate::renaming::{renamed, renaming};
use crate::running::Run;
use crate::stages::stages_before;
use crate::texts::put_text;
use hm_terms::Term;
use hm_tree::{Memory, Tree, take_under};
use hm_tree_parts::{into_child, into_items, list_build, merge_into, under, without_edge};

/// What a lens puts, by so many levels of recursion at most. Each kind of lens has its steps here, since functions that call
/// one another may not be lent text lenses of unknown types.
pub fn put_by(
    levels: u64,
    run: &Run,
    term: &Term,
    shown: Tree,
    before: Option<Tree>,
) -> Result<Tree, Memory>
    requires index { IsIndex run.now.definitions.now run.now.bodies.now }
    requires put { IsPut (setting_in (map (λ b. meaning b) run.now.texts.now) run.now.definitions.now) (lens_of term.now) shown before }
    ensures { IfOk result (Puts (setting_in (map (λ b. meaning b) run.now.texts.now) run.now.definitions.now) (lens_of term.now) shown before) }
{
    if levels == 0 {
        return Err(Memory);
    }
    if let Some((from, to)) = renaming(term) {
        return renamed(shown, to, from);
    }
    match term {
        Term::Id => Ok(shown),
        Term::Const { default, .. } => Ok(before_else(before, default)?),
        Term::Hoist(name) => Ok(under(name.copy()?, shown)?),
        Term::Plunge(_) => Ok(into_child(shown)),
        Term::Copy(_, name) => Ok(without_edge(shown, name)),
        Term::Merge(one, two) => Ok(merge_into(shown, one, two, before)?),
        Term::Text(name) => put_text(run, name, &shown, before.as_ref()),
        Term::Call(name) => {
            put_by(
                levels - 1,
                run,
                body(run.definitions, run.bodies, name),
                shown,
                before,
            )
        }
        // Stage by stage, from the last to the first.
        Term::Seq(_, _) => {
            let mut stages = stages_before(shown.allocator(), levels - 1, run, term, before)?;
            let mut made = shown;
            while let Some((stage, old)) = stages.pop() {
                made = put_by(levels - 1, run, stage, made, old)?;
            }
            Ok(made)
        }
        // With the names in the concrete tree, and those in the view.
        Term::Fork {
            concrete,
            shown: names,
            inside,
            outside,
        } => {
            let (within, without) = shown.into_parts(names)?;
            let (old_within, old_without) = parts_before(before, concrete)?;
            let one = put_by(levels - 1, run, inside, within, old_within)?;
            let two = put_by(levels - 1, run, outside, without, old_without)?;
            Ok(Tree::join(one, two)?)
        }
        // By whether the tree from before has a name.
        Term::ByConcrete { name, yes, no } => {
            let lens = chosen(before.as_ref(), name, yes, no);
            put_by(levels - 1, run, lens, shown, before)
        }
        // By whether the view has its name. The tree from before has the name of trees or lacks it, as the view says.
        Term::ByView {
            name,
            shown: mark,
            yes,
            no,
        } => {
            let lens = chosen(Some(&shown), mark, yes, no);
            let old = before_where(before, name, has(Some(&shown), mark));
            put_by(levels - 1, run, lens, shown, old)
        }
        // Item by item, each with the item at its place before.
        Term::List(inner) => {
            let mut made = Vec::new(shown.allocator());
            let mut old = before;
            for item in into_items(shown)? {
                let (first, others) = item_before(old);
                made.push(put_by(levels - 1, run, inner, item, first)?)?;
                old = others;
            }
            Ok(list_build(made)?)
        }
        // Child by child, each with the child of its name before.
        Term::Map(_) | Term::Each(_) => {
            let mut edges = Vec::with_capacity(shown.allocator(), shown.count())?;
            let mut rest = edges_before(shown.allocator(), before);
            for (name, child) in children(term, shown)? {
                let tree = match child.lens {
                    Some(lens) => {
                        let old = take_under(&mut rest, &name);
                        put_by(levels - 1, run, lens, child.tree, old)?
                    }
                    None => child.tree,
                };
                edges.push((name, tree))?;
            }
            Ok(Tree::of_edges(edges)?)
        }
    }
}
