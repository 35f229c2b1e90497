//! What texts are read as, written again.
ghost use Rattle.std.specs.Prelude.{◌≡◌, IfOk, length};
ghost use Rattle.hm_schema.specs.Values.{options_value};
ghost use Rattle.hm_format.specs.Options.{AreSound};

use crate::faults::{lens_line, schema_line, text_line};
use crate::options::read_options;
use hm_schema::{Options, Schema};
use hm_schema_text::read_schema;
use hm_schema_writer::append_nodes;
use hm_tree::{Archive, Memory, Name, State};
use hm_tree_text::{read_archive, read_tree, write_archive, write_tree};
use std::alloc::Global;

/// What is said of a text at a step; none where there is no such step.
pub fn text_answer(alloc: Global, step: &str, bytes: &[u8]) -> Result<Option<Vec<u8>>, Memory> {
    match step {
        "tree" => Ok(Some(tree_answer(alloc, bytes)?)),
        "archive" => Ok(Some(archive_answer(alloc, bytes)?)),
        "schema" => Ok(Some(schema_answer(alloc, bytes)?)),
        "nodes" => Ok(Some(nodes_answer(alloc, bytes)?)),
        _ => Ok(None),
    }
}

fn tree_answer(alloc: Global, bytes: &[u8]) -> Result<Vec<u8>, Memory> {
    match read_tree(alloc, bytes) {
        Ok(tree) => write_tree(alloc, &tree),
        Err(fault) => text_line(alloc, fault),
    }
}

fn archive_answer(alloc: Global, bytes: &[u8]) -> Result<Vec<u8>, Memory> {
    match read_archive(alloc, bytes) {
        Ok(archive) => archive_text(alloc, &archive),
        Err(fault) => text_line(alloc, fault),
    }
}

// What an archive is at its root, and its text.
fn archive_text(alloc: Global, archive: &Archive) -> Result<Vec<u8>, Memory> {
    let root = match archive.root() {
        State::Missing => "missing\n",
        State::Marked => "marked\n",
        State::Present => "present\n",
    };
    let mut text = Vec::from_slice(alloc, root.as_bytes())?;
    text.extend_from_slice(&write_archive(alloc, archive)?)?;
    Ok(text)
}

fn schema_answer(alloc: Global, bytes: &[u8]) -> Result<Vec<u8>, Memory> {
    match read_schema(alloc, bytes) {
        Ok(schema) => schema_text(alloc, &schema),
        Err(fault) => schema_line(alloc, fault),
    }
}

/// The lines of a schema, whose nodes are named by their numbers.
pub fn schema_text(alloc: Global, schema: &Schema) -> Result<Vec<u8>, Memory> {
    let place = schema.root().place;
    let mut text = format!(in alloc; "root N{place}\n")?.into_bytes();
    let nodes = schema.nodes();
    append_nodes(&mut text, &numbers(alloc, nodes.len())?, nodes)?;
    Ok(text)
}

// The names `N0`, `N1` and so on.
fn numbers(alloc: Global, count: usize) -> Result<Vec<Name>, Memory>
    ensures { IfOk result (λ names. length names.items ≡ count) }
{
    let mut names = Vec::new(alloc);
    for place in 0..count {
        let name = format!(in alloc; "N{place}")?;
        names.push(Name::from_text(alloc, name.as_str())?)?;
    }
    Ok(names)
}

fn nodes_answer(alloc: Global, bytes: &[u8]) -> Result<Vec<u8>, Memory> {
    match read_options(alloc, "tree", &[], bytes) {
        Ok(options) => nodes_text(alloc, &options),
        Err(fault) => lens_line(alloc, fault),
    }
}

// The lines of the nodes that are declared.
fn nodes_text(alloc: Global, options: &Options) -> Result<Vec<u8>, Memory>
    requires { AreSound (options_value options.now) }
{
    let mut text = Vec::new(alloc);
    append_nodes(&mut text, &options.type_names, &options.types)?;
    Ok(text)
}
