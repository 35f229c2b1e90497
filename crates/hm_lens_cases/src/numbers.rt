//! Small schemas, which are read, put into a table and written by numbers.
ghost use Rattle.std.specs.Prelude.{◌≡◌, All, []};

use hm_schema::{Node, Schema};
use hm_schema_text::{SchemaFault, read_schema};
use hm_tree::Memory;
use hm_types_schemas::{is_plain, numbered};
use hm_types_table::Table;
use std::alloc::Global;
use std::process::Abort;
use std::test::Fail;

// A cell and its rest in turn are the same; a leaf is listed twice, a shape is repeated, a name stands in no shape, and a
// node isn't reached.
const TANGLED: &str =
    "harmony schema 1\nroot First\nnode Lone\n  edge a Leaf\n  shape a\nnode First\n  edge *h Item\n  edge *t Rest\n  edge z Lone\n  shape\n  shape *h *t\n  shape\nnode Rest\n  edge *h Item\n  edge *t First\n  shape *h *t\n  shape\nnode Item\n  edge a Leaf\n  edge b Other\n  shape a b\nnode Leaf\n  shape\nnode Other\n  shape\n";

fn schema_of(alloc: Global, text: &str) -> Result<Schema, Fail> {
    match read_schema(alloc, text.as_bytes()) {
        Ok(schema) => Ok(schema),
        Err(SchemaFault::Memory) => Err(Memory.into()),
        Err(SchemaFault::BadSchema { .. }) => Err("a schema isn't read".into()),
    }
}

// What a schema without twins is written as.
fn rewritten(alloc: Global, schema: &Schema) -> Result<Option<Schema>, Memory> {
    if !is_plain(schema) {
        return Ok(None);
    }
    let table = Table::of(alloc, schema.nodes(), &[])?;
    Ok(Some(numbered(alloc, &table, schema.root())?))
}

// How many shapes each node has.
fn shape_counts(alloc: Global, nodes: &[Node]) -> Result<Vec<usize>, Memory> {
    let mut counts = Vec::new(alloc);
    for node in nodes {
        counts.push(node.shapes.len())?;
    }
    Ok(counts)
}

// Where the listed names of each node lead, behind one another.
fn ends(alloc: Global, nodes: &[Node]) -> Result<Vec<usize>, Memory> {
    let mut ends = Vec::new(alloc);
    for node in nodes {
        for child in &node.children {
            ends.push(child.1.place)?;
        }
    }
    Ok(ends)
}

fn expect_numbered(rt: &impl Abort, alloc: Global, found: &Schema) -> Result<(), Fail> {
    assert_eq!(rt; found.root().place, 0);
    assert_eq!(rt;
        shape_counts(alloc, found.nodes())?.as_slice(),
        [2, 1, 1].as_slice()
    );
    assert_eq!(rt;
        ends(alloc, found.nodes())?.as_slice(),
        [1, 0, 2, 2].as_slice()
    );
    Ok(())
}

#[test]
fn a_schema_is_written_by_numbers(rt: HostRuntime) -> Result<(), Fail> {
    let alloc = rt.alloc();
    match rewritten(alloc, &schema_of(alloc, TANGLED)?)? {
        Some(found) => expect_numbered(&rt, alloc, &found),
        None => Err("a schema has twins".into()),
    }
}
