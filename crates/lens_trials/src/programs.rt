//! What is said of a schema, a lens file and trees.
ghost use Rattle.std.specs.Prelude.{map};
ghost use Rattle.hm_schema.specs.Membership.{HasNoTwins};
ghost use Rattle.hm_terms.specs.Programs.{program_value};
ghost use Rattle.hm_terms.specs.WellFormedPrograms.{IsWellFormed};
ghost use Rattle.lens_trials.specs.Trials.{FitsTrees};

use crate::lines::{fault_line, line_of, trees_line};
use crate::members::{load, members, tree_of};
use crate::runs::{say_edit, say_made, say_put, say_shown};
use crate::trials::are_lawful;
use hm_focal::{LensFault, read_lens};
use hm_outside::Store;
use hm_schema::Schema;
use hm_schema_text::{SchemaFault, read_schema, write_schema};
use hm_terms::{Program, Typed};
use hm_text_kit::{FoldCase, TrimEnds, date, email, trim, yes_no};
use hm_text_lens::TextLens;
use hm_tree::{Memory, Name};
use hm_types::check;
use std::alloc::Global;

/// What is said of these files at a step. There are the text lenses of the program `harmony`, the lens `fold` that is a
/// part of `email`, and two lenses whose names are taken: of lenses of one name the first counts.
pub fn try_files<S: Store>(
    alloc: Global,
    store: &mut S,
    step: &str,
    schema: &Name,
    lens: &Name,
    trees: &[Name],
) -> Result<Vec<u8>, Memory> {
    let mut texts: Vec<Box<dyn TextLens>> = Vec::new(alloc);
    texts.push(Box::new(alloc, trim(alloc)?)?)?;
    texts.push(Box::new(alloc, date(alloc)?)?)?;
    texts.push(Box::new(alloc, email(alloc)?)?)?;
    texts.push(Box::new(alloc, yes_no(alloc)?)?)?;
    texts.push(Box::new(alloc, FoldCase::new(Name::from_text(alloc, "fold")?))?)?;
    texts.push(Box::new(alloc, TrimEnds::new(Name::from_text(alloc, "email")?))?)?;
    texts.push(Box::new(alloc, TrimEnds::new(Name::from_text(alloc, "yesno")?))?)?;
    try_schema(alloc, store, &texts, step, schema, lens, trees)
}

fn try_schema<S: Store>(
    alloc: Global,
    store: &mut S,
    texts: &[Box<dyn TextLens>],
    step: &str,
    schema: &Name,
    lens: &Name,
    trees: &[Name],
) -> Result<Vec<u8>, Memory> {
    let bytes = load(store, schema)?;
    match read_schema(alloc, &bytes) {
        Ok(source) => try_lens(alloc, store, texts, &source, step, lens, trees),
        Err(SchemaFault::BadSchema { line }) => line_of(alloc, "BadSchema", line),
        Err(SchemaFault::Memory) => Err(Memory),
    }
}

fn try_lens<S: Store>(
    alloc: Global,
    store: &mut S,
    texts: &[Box<dyn TextLens>],
    source: &Schema,
    step: &str,
    lens: &Name,
    trees: &[Name],
) -> Result<Vec<u8>, Memory>
    requires { HasNoTwins source.now }
{
    let bytes = load(store, lens)?;
    match read_lens(alloc, &bytes) {
        Ok(program) => try_program(alloc, store, program, source, texts, step, trees),
        Err(LensFault::BadLens { line }) => line_of(alloc, "BadLens", line),
        Err(LensFault::Memory) => Err(Memory),
    }
}

fn try_program<S: Store>(
    alloc: Global,
    store: &mut S,
    program: Program,
    source: &Schema,
    texts: &[Box<dyn TextLens>],
    step: &str,
    trees: &[Name],
) -> Result<Vec<u8>, Memory>
    requires program { IsWellFormed (program_value program) }
    requires source { HasNoTwins source.now }
{
    if step == "read" {
        return Ok(Vec::from_slice(alloc, b"read\n")?);
    }
    match check(alloc, program, source, texts) {
        Ok(typed) => try_typed(alloc, store, texts, &typed, step, trees),
        Err(fault) => fault_line(alloc, fault),
    }
}

fn try_typed<S: Store>(
    alloc: Global,
    store: &mut S,
    texts: &[Box<dyn TextLens>],
    typed: &Typed,
    step: &str,
    trees: &[Name],
) -> Result<Vec<u8>, Memory>
    requires { FitsTrees (map (λ b. meaning b) texts.now) typed.now }
{
    match (step, trees) {
        ("check", _) => Ok(Vec::from_slice(alloc, b"typed\n")?),
        ("view", _) => write_schema(alloc, &typed.view),
        ("shows", trees) => shows(alloc, store, texts, typed, trees),
        ("puts", [view]) => makes(alloc, store, texts, typed, view),
        ("puts", [view, tree]) => puts(alloc, store, texts, typed, view, tree),
        ("edits", [tree, view]) => edits(alloc, store, texts, typed, tree, view),
        _ => tries(alloc, store, texts, typed, step, trees),
    }
}

// What is shown of each tree.
fn shows<S: Store>(
    alloc: Global,
    store: &mut S,
    texts: &[Box<dyn TextLens>],
    typed: &Typed,
    trees: &[Name],
) -> Result<Vec<u8>, Memory>
    requires { FitsTrees (map (λ b. meaning b) texts.now) typed.now }
{
    let mut lines = Vec::new(alloc);
    for name in trees {
        let tree = tree_of(alloc, store, name)?;
        say_shown(&mut lines, texts, typed, &tree)?;
    }
    Ok(lines)
}

// What is put of a view with no tree from before.
fn makes<S: Store>(
    alloc: Global,
    store: &mut S,
    texts: &[Box<dyn TextLens>],
    typed: &Typed,
    view: &Name,
) -> Result<Vec<u8>, Memory>
    requires { FitsTrees (map (λ b. meaning b) texts.now) typed.now }
{
    let view = tree_of(alloc, store, view)?;
    let mut lines = Vec::new(alloc);
    say_made(&mut lines, texts, typed, &view)?;
    Ok(lines)
}

// What is put of a view with the tree from before.
fn puts<S: Store>(
    alloc: Global,
    store: &mut S,
    texts: &[Box<dyn TextLens>],
    typed: &Typed,
    view: &Name,
    tree: &Name,
) -> Result<Vec<u8>, Memory>
    requires { FitsTrees (map (λ b. meaning b) texts.now) typed.now }
{
    let view = tree_of(alloc, store, view)?;
    let tree = tree_of(alloc, store, tree)?;
    let mut lines = Vec::new(alloc);
    say_put(&mut lines, texts, typed, "put", &view, &tree)?;
    Ok(lines)
}

// What is shown of a tree, and put of an edited view.
fn edits<S: Store>(
    alloc: Global,
    store: &mut S,
    texts: &[Box<dyn TextLens>],
    typed: &Typed,
    tree: &Name,
    view: &Name,
) -> Result<Vec<u8>, Memory>
    requires { FitsTrees (map (λ b. meaning b) texts.now) typed.now }
{
    let tree = tree_of(alloc, store, tree)?;
    let view = tree_of(alloc, store, view)?;
    let mut lines = Vec::new(alloc);
    say_edit(&mut lines, texts, typed, &tree, &view)?;
    Ok(lines)
}

// How far the lens was run on the trees that are members.
fn tries<S: Store>(
    alloc: Global,
    store: &mut S,
    texts: &[Box<dyn TextLens>],
    typed: &Typed,
    step: &str,
    names: &[Name],
) -> Result<Vec<u8>, Memory>
    requires { FitsTrees (map (λ b. meaning b) texts.now) typed.now }
{
    let trees = members(alloc, store, &typed.source, names)?;
    let lawful = are_lawful(texts, typed, &trees, step)?;
    trees_line(alloc, step, trees.len(), lawful)
}
