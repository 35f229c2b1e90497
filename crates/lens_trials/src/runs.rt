//! What a lens shows and puts, in lines.
ghost use Rattle.std.specs.Prelude.{map};
ghost use Rattle.hm_schema.specs.Membership.{IsMemberTree};
ghost use Rattle.lens_trials.specs.Trials.{FitsTrees};

use hm_eval::{get, put, put_changes};
use hm_terms::Typed;
use hm_text_lens::TextLens;
use hm_tree::{Memory, Tree};
use hm_tree_text::write_tree;

// A line more: a word, and a tree.
fn say(lines: &mut Vec<u8>, word: &str, tree: &Tree) -> Result<(), Memory> {
    let text = write_tree(tree.allocator(), tree)?;
    lines.extend_from_slice(word.as_bytes())?;
    lines.push(b' ')?;
    lines.extend_from_slice(&text)?;
    Ok(())
}

// A line more, on a tree that is no member.
fn say_outside(lines: &mut Vec<u8>, schema: &str) -> Result<(), Memory> {
    lines.extend_from_slice(b"outside the ")?;
    lines.extend_from_slice(schema.as_bytes())?;
    lines.push(b'\n')?;
    Ok(())
}

/// What is shown of a tree.
pub fn say_shown(
    lines: &mut Vec<u8>,
    texts: &[Box<dyn TextLens>],
    typed: &Typed,
    tree: &Tree,
) -> Result<(), Memory>
    requires { FitsTrees (map (λ b. meaning b) texts.now) typed.now }
{
    if !typed.source.member(tree) {
        return say_outside(lines, "source");
    }
    let shown = get(&typed.program, texts, tree)?;
    say(lines, "shown", &shown)
}

/// What is put of a view with no tree from before.
pub fn say_made(
    lines: &mut Vec<u8>,
    texts: &[Box<dyn TextLens>],
    typed: &Typed,
    view: &Tree,
) -> Result<(), Memory>
    requires { FitsTrees (map (λ b. meaning b) texts.now) typed.now }
{
    if !typed.view.member(view) {
        return say_outside(lines, "view");
    }
    let tree = put(&typed.program, texts, view, None)?;
    say(lines, "made", &tree)
}

/// What is put of a view with the tree from before, behind this word.
pub fn say_put(
    lines: &mut Vec<u8>,
    texts: &[Box<dyn TextLens>],
    typed: &Typed,
    word: &str,
    view: &Tree,
    before: &Tree,
) -> Result<(), Memory>
    requires { FitsTrees (map (λ b. meaning b) texts.now) typed.now }
{
    if !typed.view.member(view) {
        return say_outside(lines, "view");
    }
    if !typed.source.member(before) {
        return say_outside(lines, "source");
    }
    let tree = put(&typed.program, texts, view, Some(before))?;
    say(lines, word, &tree)?;
    say_otherwise(lines, texts, typed, view, before, &tree)
}

// What is put of the changes in a view, should it not be what is put of the view.
fn say_otherwise(
    lines: &mut Vec<u8>,
    texts: &[Box<dyn TextLens>],
    typed: &Typed,
    view: &Tree,
    before: &Tree,
    made: &Tree,
) -> Result<(), Memory>
    requires fits { FitsTrees (map (λ b. meaning b) texts.now) typed.now }
    requires view { IsMemberTree typed.now.view view.now }
    requires before { IsMemberTree typed.now.source before.now }
{
    let old = get(&typed.program, texts, before)?;
    let edited = view.copy()?;
    let from = before.copy()?;
    let tree = put_changes(&typed.program, texts, edited, from, old)?;
    if tree.same(made) {
        return Ok(());
    }
    say(lines, "otherwise", &tree)
}

// What is put of what is shown of a tree.
fn say_back(
    lines: &mut Vec<u8>,
    texts: &[Box<dyn TextLens>],
    typed: &Typed,
    tree: &Tree,
) -> Result<(), Memory>
    requires { FitsTrees (map (λ b. meaning b) texts.now) typed.now }
{
    if !typed.source.member(tree) {
        return Ok(());
    }
    let shown = get(&typed.program, texts, tree)?;
    say_put(lines, texts, typed, "back", &shown, tree)
}

/// What is shown of a tree and put back of that, and what is put of another view with the tree and with none.
pub fn say_edit(
    lines: &mut Vec<u8>,
    texts: &[Box<dyn TextLens>],
    typed: &Typed,
    tree: &Tree,
    view: &Tree,
) -> Result<(), Memory>
    requires { FitsTrees (map (λ b. meaning b) texts.now) typed.now }
{
    say_shown(lines, texts, typed, tree)?;
    say_back(lines, texts, typed, tree)?;
    say_put(lines, texts, typed, "put", view, tree)?;
    say_made(lines, texts, typed, view)
}
