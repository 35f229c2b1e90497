//! Schemas, written.
ghost use Rattle.std.specs.Prelude.{◌≡◌, IfOk};
ghost use Rattle.hm_schema_text.specs.SchemaFiles.{IsSchemaFile};
ghost use Rattle.hm_schema_text.specs.Writing.{number_name, number_names, schema_text, IsWithinLimits};

use crate::held::nodes_are_held;
use hm_schema::Schema;
use hm_schema_writer::append_nodes;
use hm_tree::{Memory, Name};
use std::alloc::Global;

// The name of a node, by its number.
fn number_name(alloc: Global, number: usize) -> Result<Name, Memory>
    ensures { IfOk result (λ name. name ≡ number_name number) }
{
    let text = format!(in alloc; "N{number}")?;
    Name::from_string(alloc, text)
}

// The names of so many nodes.
fn number_names(alloc: Global, count: usize) -> Result<Vec<Name>, Memory>
    ensures { IfOk result (λ names. names.items ≡ number_names count) }
{
    let mut names = Vec::new(alloc);
    for number in 0..count {
        names.push(number_name(alloc, number)?)?;
    }
    Ok(names)
}

/// The file of a schema, whose nodes are named by their numbers: no comments, and one space between two tokens. It is
/// read as this schema, unless that has twins, or more nodes or shapes than a file may declare.
pub fn write_schema(alloc: Global, schema: &Schema) -> Result<Vec<u8>, Memory>
    ensures written { IfOk result (λ text. text.items ≡ schema_text schema.now) }
    ensures reads { IfOk result (λ text. IsWithinLimits schema.now → IsSchemaFile text.items schema.now) }
{
    let nodes = schema.nodes();
    nodes_are_held(nodes);
    let names = number_names(alloc, nodes.len())?;
    let root = schema.root().place;
    let head = format!(in alloc; "harmony schema 1\nroot N{root}\n")?;
    let mut text = head.into_bytes();
    append_nodes(&mut text, &names, nodes)?;
    Ok(text)
}
