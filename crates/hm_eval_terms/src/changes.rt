//! What lenses put of a view that is for the most part as it was.
ghost use Rattle.std.specs.Prelude.{◌≡◌, ◌↔◌, IfOk, IsTrue, Some, map, option_copied};
ghost use Rattle.hm_terms.specs.Programs.{lens_of};
ghost use Rattle.hm_terms.specs.Put.{Puts};
ghost use Rattle.hm_eval_terms.specs.Conditions.{GivesBack, IsPut};
ghost use Rattle.hm_eval_terms.specs.Terms.{setting_in, IsIndex};

use crate::before::{edges_before, item_before};
use crate::bodies::body;
use crate::children::children;
use crate::putting::put_by;
use crate::running::Run;
use hm_terms::Term;
use hm_tree::{Memory, Tree, take_under};
use hm_tree_parts::{into_items, list_build};

/// What a lens puts, by so many levels of recursion at most, given what it showed of the tree from before. It goes into
/// items and children, each with what stood there before and what was shown of that. Both loops stand here, since functions
/// that call one another may not be lent text lenses of unknown types. Most lists have one item, which is compared as the
/// list, without taking either apart.
pub fn put_changed(
    levels: u64,
    run: &Run,
    term: &Term,
    shown: Tree,
    before: Option<Tree>,
    old: Option<Tree>,
) -> Result<Tree, Memory>
    requires index { IsIndex run.now.definitions.now run.now.bodies.now }
    requires put { IsPut (setting_in (map (λ b. meaning b) run.now.texts.now) run.now.definitions.now) (lens_of term.now) shown before }
    requires back { GivesBack (setting_in (map (λ b. meaning b) run.now.texts.now) run.now.definitions.now) (lens_of term.now) old before }
    ensures { IfOk result (Puts (setting_in (map (λ b. meaning b) run.now.texts.now) run.now.definitions.now) (lens_of term.now) shown before) }
{
    if levels == 0 {
        return Err(Memory);
    }
    match term {
        Term::Call(name) => {
            let inner = body(run.definitions, run.bodies, name);
            put_changed(levels - 1, run, inner, shown, before, old)
        }
        Term::List(inner) if is_taken_apart(term, &shown) => {
            let mut made = Vec::new(shown.allocator());
            let mut rest = before;
            let mut views = old;
            for item in into_items(shown)? {
                let (first, others) = item_before(rest);
                let (view, more) = item_before(views);
                made.push(put_changed(levels - 1, run, inner, item, first, view)?)?;
                rest = others;
                views = more;
            }
            Ok(list_build(made)?)
        }
        Term::Map(_) | Term::Each(_) => {
            let mut edges = Vec::with_capacity(shown.allocator(), shown.count())?;
            let mut rest = edges_before(shown.allocator(), before);
            let mut views = edges_before(shown.allocator(), old);
            for (name, child) in children(term, shown)? {
                let tree = match child.lens {
                    Some(lens) => {
                        let first = take_under(&mut rest, &name);
                        let view = take_under(&mut views, &name);
                        put_changed(levels - 1, run, lens, child.tree, first, view)?
                    }
                    None => child.tree,
                };
                edges.push((name, tree))?;
            }
            Ok(Tree::of_edges(edges)?)
        }
        _ => put_whole(levels, run, term, shown, before, old),
    }
}

// What a lens puts that isn't followed into parts of the view: the tree from before, where the view stays.
fn put_whole(
    levels: u64,
    run: &Run,
    term: &Term,
    shown: Tree,
    before: Option<Tree>,
    old: Option<Tree>,
) -> Result<Tree, Memory>
    requires index { IsIndex run.now.definitions.now run.now.bodies.now }
    requires put { IsPut (setting_in (map (λ b. meaning b) run.now.texts.now) run.now.definitions.now) (lens_of term.now) shown before }
    requires back { GivesBack (setting_in (map (λ b. meaning b) run.now.texts.now) run.now.definitions.now) (lens_of term.now) old before }
    ensures { IfOk result (Puts (setting_in (map (λ b. meaning b) run.now.texts.now) run.now.definitions.now) (lens_of term.now) shown before) }
{
    if !stays(&shown, old.as_ref()) {
        return put_by(levels, run, term, shown, before);
    }
    let Some(tree) = before else {
        unreachable!();
    };
    Ok(tree)
}

// Whether a lens on items is followed into those of a view. Any answer would do: what is put is the same.
fn is_taken_apart(lens: &Term, view: &Tree) -> bool {
    match lens {
        Term::List(inner) => has_parts(inner) || !is_single(view),
        _ => true,
    }
}

// Whether a lens is followed into parts of a view. Here, too, any answer would do.
fn has_parts(lens: &Term) -> bool {
    matches!(
        lens,
        Term::Call(_) | Term::List(_) | Term::Map(_) | Term::Each(_)
    )
}

// Whether a list has one item at the most. Here, too, any answer would do.
fn is_single(list: &Tree) -> bool {
    match list.edges() {
        [_, (_, rest)] => rest.count() == 0,
        _ => true,
    }
}

// Whether a view is the one from before.
fn stays(shown: &Tree, old: Option<&Tree>) -> bool
    ensures { IsTrue result ↔ (option_copied old.entry ≡ Some shown.now) }
{
    match old {
        Some(view) => shown.same(view),
        None => false,
    }
}
