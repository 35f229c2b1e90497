//! Sequences of lenses, stage by stage.
ghost use Rattle.std.specs.Prelude.{IfOk, OnOk, map, option_copied};
ghost use Rattle.hm_terms.specs.Programs.{lens_of};
ghost use Rattle.hm_terms.specs.Put.{ShowsBefore};
ghost use Rattle.hm_eval_terms.specs.Conditions.{IsShownBefore};
ghost use Rattle.hm_eval_terms.specs.Stages.{AddsStages, CanPut, PutThrough};
ghost use Rattle.hm_eval_terms.specs.Terms.{setting_in, IsIndex};

use crate::running::Run;
use crate::showing::show;
use hm_terms::Term;
use hm_tree::{Memory, Tree};
use std::alloc::Global;

/// The stages of a sequence, however it is nested, each with what the stages before it show of the tree from before. No
/// stage is shown more than once.
pub fn stages_before<'a>(
    alloc: Global,
    levels: u64,
    run: &Run,
    term: &'a Term,
    before: Option<Tree>,
) -> Result<Vec<(&'a Term, Option<Tree>)>, Memory>
    requires index { IsIndex run.now.definitions.now run.now.bodies.now }
    requires put { CanPut (setting_in (map (λ b. meaning b) run.now.texts.now) run.now.definitions.now) (lens_of term.now) before }
    ensures { IfOk result (λ stages. PutThrough (setting_in (map (λ b. meaning b) run.now.texts.now) run.now.definitions.now) (lens_of term.now) before stages.items) }
{
    let mut stages = Vec::new(alloc);
    add_stages(&mut stages, term)?;
    let Some(last) = stages.pop() else {
        unreachable!();
    };
    let mut passed = Vec::with_capacity(alloc, stages.len())?;
    let mut here = before;
    for stage in &stages {
        let next = show_before(levels, run, stage, here.as_ref())?;
        passed.push((*stage, here))?;
        here = next;
    }
    passed.push((last, here))?;
    Ok(passed)
}

// Adds the stages of a lens to those before it.
fn add_stages<'a>(stages: &mut Vec<&'a Term>, term: &'a Term) -> Result<(), Memory>
    ensures { OnOk result (AddsStages (lens_of term.now) stages.old.items stages.new.items) }
{
    match term {
        Term::Seq(first, second) => {
            add_stages(stages, first)?;
            add_stages(stages, second)?;
        }
        _ => stages.push(term)?,
    }
    Ok(())
}

// What a lens shows of a tree from before, if there is one.
fn show_before(
    levels: u64,
    run: &Run,
    term: &Term,
    before: Option<&Tree>,
) -> Result<Option<Tree>, Memory>
    requires index { IsIndex run.now.definitions.now run.now.bodies.now }
    requires shown { IsShownBefore (setting_in (map (λ b. meaning b) run.now.texts.now) run.now.definitions.now) (lens_of term.now) (option_copied before) }
    ensures { IfOk result (ShowsBefore (setting_in (map (λ b. meaning b) run.now.texts.now) run.now.definitions.now) (lens_of term.now) (option_copied before.entry)) }
{
    match before {
        Some(tree) => Ok(Some(show(levels, run, term, tree.copy()?)?)),
        None => Ok(None),
    }
}
