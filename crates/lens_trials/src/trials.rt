//! IsMemberTree shown and put back, and the laws tried on them.
ghost use Rattle.std.specs.Prelude.{◌≡◌, IfOk, All, true, map};
ghost use Rattle.hm_schema.specs.Membership.{IsMemberTree};
ghost use Rattle.lens_trials.specs.Trials.{FitsTrees};

use hm_eval::{get, put};
use hm_terms::Typed;
use hm_text_lens::TextLens;
use hm_tree::{Memory, Tree};

/// Whether the lens keeps the laws on trees of its source, as far as a step goes.
pub fn are_lawful(
    texts: &[Box<dyn TextLens>],
    typed: &Typed,
    trees: &[Tree],
    step: &str,
) -> Result<bool, Memory>
    requires fits { FitsTrees (map (λ b. meaning b) texts.now) typed.now }
    requires members { All (IsMemberTree typed.now.source) trees.now }
    ensures { IfOk result (λ lawful. lawful ≡ true) }
{
    for tree in trees {
        if !is_lawful(texts, typed, tree, trees, step)? {
            return Ok(false);
        }
    }
    Ok(true)
}

// Whether it does with one tree, before which each other one stands where all laws are tried.
fn is_lawful(
    texts: &[Box<dyn TextLens>],
    typed: &Typed,
    tree: &Tree,
    trees: &[Tree],
    step: &str,
) -> Result<bool, Memory>
    requires fits { FitsTrees (map (λ b. meaning b) texts.now) typed.now }
    requires tree { IsMemberTree typed.now.source tree.now }
    requires members { All (IsMemberTree typed.now.source) trees.now }
    ensures { IfOk result (λ lawful. lawful ≡ true) }
{
    match step {
        "trees" => Ok(true),
        "get" => is_shown(texts, typed, tree),
        "put" => is_put_back(texts, typed, tree),
        _ => keeps_all(texts, typed, tree, trees),
    }
}

// A tree is shown.
fn is_shown(texts: &[Box<dyn TextLens>], typed: &Typed, tree: &Tree) -> Result<bool, Memory>
    requires fits { FitsTrees (map (λ b. meaning b) texts.now) typed.now }
    requires tree { IsMemberTree typed.now.source tree.now }
    ensures { IfOk result (λ shown. shown ≡ true) }
{
    get(&typed.program, texts, tree)?;
    Ok(true)
}

// What is shown of a tree, put back, is the tree.
fn is_put_back(texts: &[Box<dyn TextLens>], typed: &Typed, tree: &Tree) -> Result<bool, Memory>
    requires fits { FitsTrees (map (λ b. meaning b) texts.now) typed.now }
    requires tree { IsMemberTree typed.now.source tree.now }
    ensures { IfOk result (λ same. same ≡ true) }
{
    let shown = get(&typed.program, texts, tree)?;
    let back = put(&typed.program, texts, &shown, Some(tree))?;
    Ok(back.same(tree))
}

// Whether the lens keeps all laws.
fn keeps_all(
    texts: &[Box<dyn TextLens>],
    typed: &Typed,
    tree: &Tree,
    trees: &[Tree],
) -> Result<bool, Memory>
    requires fits { FitsTrees (map (λ b. meaning b) texts.now) typed.now }
    requires tree { IsMemberTree typed.now.source tree.now }
    requires members { All (IsMemberTree typed.now.source) trees.now }
    ensures { IfOk result (λ lawful. lawful ≡ true) }
{
    if !is_in_view(texts, typed, tree)? || !is_put_back(texts, typed, tree)? {
        return Ok(false);
    }
    if !shows_anew(texts, typed, tree)? {
        return Ok(false);
    }
    Ok(all_show_again(texts, typed, tree, trees)?)
}

// What is shown of a tree is a member of the view.
fn is_in_view(texts: &[Box<dyn TextLens>], typed: &Typed, tree: &Tree) -> Result<bool, Memory>
    requires fits { FitsTrees (map (λ b. meaning b) texts.now) typed.now }
    requires tree { IsMemberTree typed.now.source tree.now }
    ensures { IfOk result (λ inside. inside ≡ true) }
{
    let shown = get(&typed.program, texts, tree)?;
    Ok(typed.view.member(&shown))
}

// What is shown of a tree, put with no tree from before, is a member of the source and shows the same.
fn shows_anew(texts: &[Box<dyn TextLens>], typed: &Typed, tree: &Tree) -> Result<bool, Memory>
    requires fits { FitsTrees (map (λ b. meaning b) texts.now) typed.now }
    requires tree { IsMemberTree typed.now.source tree.now }
    ensures { IfOk result (λ same. same ≡ true) }
{
    let shown = get(&typed.program, texts, tree)?;
    let new = put(&typed.program, texts, &shown, None)?;
    if !typed.source.member(&new) {
        return Ok(false);
    }
    let again = get(&typed.program, texts, &new)?;
    Ok(again.same(&shown))
}

fn all_show_again(
    texts: &[Box<dyn TextLens>],
    typed: &Typed,
    before: &Tree,
    trees: &[Tree],
) -> Result<bool, Memory>
    requires fits { FitsTrees (map (λ b. meaning b) texts.now) typed.now }
    requires before { IsMemberTree typed.now.source before.now }
    requires members { All (IsMemberTree typed.now.source) trees.now }
    ensures { IfOk result (λ same. same ≡ true) }
{
    for tree in trees {
        if !shows_again(texts, typed, before, tree)? {
            return Ok(false);
        }
    }
    Ok(true)
}

// What is shown of a tree, put with another one from before, is a member of the source and shows the same.
fn shows_again(
    texts: &[Box<dyn TextLens>],
    typed: &Typed,
    before: &Tree,
    tree: &Tree,
) -> Result<bool, Memory>
    requires fits { FitsTrees (map (λ b. meaning b) texts.now) typed.now }
    requires before { IsMemberTree typed.now.source before.now }
    requires tree { IsMemberTree typed.now.source tree.now }
    ensures { IfOk result (λ same. same ≡ true) }
{
    let shown = get(&typed.program, texts, tree)?;
    let new = put(&typed.program, texts, &shown, Some(before))?;
    if !typed.source.member(&new) {
        return Ok(false);
    }
    let again = get(&typed.program, texts, &new)?;
    Ok(again.same(&shown))
}
