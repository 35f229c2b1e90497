//! Schemas, read from files.
ghost use Rattle.std.specs.Prelude.{◌≢◌};
ghost use Rattle.hm_schema_text.specs.declared.fault.SchemaFault.TheVariants.{Memory};
ghost use Rattle.hm_schema_text.specs.SchemaFiles.{ReadsSchema};

use crate::fault::SchemaFault;
use crate::judge::{find_root, first_bad};
use hm_schema::Schema;
use hm_schema_lines::{build_nodes, declared_nodes, node_of, read_entries};
use std::alloc::Global;

/// The schema of a file, or its first bad line.
pub fn read_schema(alloc: Global, bytes: &[u8]) -> Result<Schema, SchemaFault>
    ensures { result ≢ Err Memory → ReadsSchema bytes.now result }
{
    let entries = read_entries(alloc, bytes)?;
    let declared = declared_nodes(alloc, &entries)?;
    if let Some(place) = first_bad(alloc, bytes, &entries, &declared)? {
        return Err(SchemaFault::BadSchema { line: place + 1 });
    }
    let Some(name) = find_root(alloc, bytes, &entries)? else {
        return Err(SchemaFault::BadSchema {
            line: entries.len() + 1,
        });
    };
    let root = node_of(&entries, &declared, &name);
    let own = [name];
    let nodes = build_nodes(alloc, &entries, &declared, &own)?;
    Ok(Schema::new(nodes, root).indexed()?)
}
