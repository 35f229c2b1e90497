//! Texts of values, through the text lens of a name.
ghost use Rattle.std.specs.Prelude.{◌≡◌, IfOk, IfSome, IsSome, Some, map, option_copied};
ghost use Rattle.hm_text_lens.specs.Meanings.{IsFrom, IsInto, IsBefore};
ghost use Rattle.hm_text_lens.specs.Naming.{first_named};
ghost use Rattle.hm_terms.specs.Lenses.{text};
ghost use Rattle.hm_terms.specs.Shown.{Shows};
ghost use Rattle.hm_terms.specs.Put.{Puts};
ghost use Rattle.hm_tree_parts.specs.Edges.{HasOneEdge};
ghost use Rattle.hm_eval_terms.specs.Conditions.{IsShown, IsPut};
ghost use Rattle.hm_eval_terms.specs.Terms.{setting_in};
ghost use Rattle.hm_eval_terms.specs.Texts.{IsNameBefore};

use crate::running::Run;
use hm_text_lens::{TextLens, first_named};
use hm_tree::{Memory, Name, Tree};
use hm_tree_parts::{value, value_of};
use std::alloc::Global;

/// What the text lens of a name shows of a value.
pub fn show_text(run: &Run, name: &Name, tree: &Tree) -> Result<Tree, Memory>
    requires { IsShown (setting_in (map (λ b. meaning b) run.now.texts.now) run.now.definitions.now) (text name.now) tree.now }
    ensures { IfOk result (Shows (setting_in (map (λ b. meaning b) run.now.texts.now) run.now.definitions.now) (text name.now) tree.now) }
{
    let lens = named(run.texts, name);
    let shown = shown_by(lens, tree.allocator(), value_of(tree))?;
    Ok(value(tree.allocator(), shown)?)
}

/// What the text lens of a name puts of a value, with the value from before or with none.
pub fn put_text(run: &Run, name: &Name, shown: &Tree, before: Option<&Tree>) -> Result<Tree, Memory>
    requires { IsPut (setting_in (map (λ b. meaning b) run.now.texts.now) run.now.definitions.now) (text name.now) shown.now (option_copied before) }
    ensures { IfOk result (Puts (setting_in (map (λ b. meaning b) run.now.texts.now) run.now.definitions.now) (text name.now) shown.now (option_copied before.entry)) }
{
    let lens = named(run.texts, name);
    let old = name_before(before);
    let made = made_by(lens, shown.allocator(), value_of(shown), old)?;
    Ok(value(shown.allocator(), made)?)
}

// The first text lens of a name.
fn named<'a>(texts: &'a [Box<dyn TextLens>], name: &Name) -> &'a Box<dyn TextLens>
    requires { IsSome (first_named name.now (map (λ b. meaning b) texts.now)) }
    ensures { first_named name.now (map (λ b. meaning b) texts.now) ≡ Some (meaning result.now) }
{
    let Some(lens) = first_named(texts, name) else {
        unreachable!();
    };
    lens
}

// What a text lens shows of a text.
fn shown_by(lens: &Box<dyn TextLens>, alloc: Global, text: &Name) -> Result<Name, Memory>
    requires { IsFrom (meaning lens.now) text.now }
    ensures { IfOk result (λ shown. shown ≡ (meaning lens.now).get_of text.now) }
{
    lens.get(alloc, text)
}

// What it puts of a text, with the text from before or with none.
fn made_by(
    lens: &Box<dyn TextLens>,
    alloc: Global,
    text: &Name,
    before: Option<&Name>,
) -> Result<Name, Memory>
    requires text { IsInto (meaning lens.now) text.now }
    requires before { IsBefore (meaning lens.now) (option_copied before) }
    ensures { IfOk result (λ made. made ≡ (meaning lens.now).put_of text.now (option_copied before.entry)) }
{
    lens.put(alloc, text, before)
}

// The one name of a tree from before, if there is one.
fn name_before(before: Option<&Tree>) -> Option<&Name>
    requires { IfSome (option_copied before) HasOneEdge }
    ensures { IsNameBefore (option_copied before.entry) (option_copied result) }
{
    match before {
        Some(tree) => Some(value_of(tree)),
        None => None,
    }
}
