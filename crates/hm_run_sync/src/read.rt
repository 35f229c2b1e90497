//! Reading the values that the six files hold.
ghost use Rattle.std.specs.Prelude.{◌≡◌, length};
ghost use Rattle.hm_tree_text.specs.Reads.{ReadsArchive};
ghost use Rattle.hm_schema_text.specs.SchemaFiles.{ReadsSchema};
ghost use Rattle.hm_run_files.specs.Steps.{Computes, Told};
ghost use Rattle.hm_run_files.specs.Files.{all_bytes};
ghost use Rattle.hm_run_sides.specs.Sides.{seen, side_value, IsSide};
ghost use Rattle.hm_run_handed.specs.Handed.{handed_in};
ghost use Rattle.hm_run_sync.specs.Reads.{Serves, OpensView, OpensSides, OpensReplicas, ReadsBehind, ReadsSix, ReadsAll, sides_of, replicas_of, before_of, schema_stop, archive_stop};

use hm_replica::{Base, Replica};
use hm_run_files::{ArchiveFault, FileFault, Refusal, Slot, Stop};
use hm_run_handed::HandedIn;
use hm_run_sides::{Side, check_view, open_replica, open_side};
use hm_schema::Schema;
use hm_schema_text::SchemaFault;
use hm_tree::Archive;
use hm_tree_text::TextFault;
use std::alloc::Global;

/// The sides of both replicas.
#[derive(Drop)]
pub struct SidePair {
    pub left: Side,
    pub right: Side,
}

/// Both replicas.
#[derive(Drop)]
pub struct ReplicaPair {
    pub left: Replica,
    pub right: Replica,
}

/// What new views of both replicas are put over.
#[derive(Drop)]
pub struct BasePair {
    pub left: Base,
    pub right: Base,
}

/// The schema, the sides, the archive and the replicas that were read.
#[derive(Drop)]
pub struct Inputs {
    pub schema: Schema,
    pub sides: SidePair,
    pub archive: Archive,
    pub replicas: ReplicaPair,
}

fn schema_stop(fault: SchemaFault) -> Stop
    ensures { result ≡ schema_stop fault }
{
    match fault {
        SchemaFault::BadSchema { line } => {
            Stop::Refused(Refusal::At(Slot::Schema, FileFault::BadSchema(line)))
        }
        SchemaFault::Memory => Stop::Memory,
    }
}

fn archive_stop(fault: TextFault) -> Stop
    ensures { result ≡ archive_stop fault }
{
    let fault = match fault {
        TextFault::BadTree { at } => ArchiveFault::At(at),
        TextFault::TooDeep => ArchiveFault::Deep,
        TextFault::Memory => return Stop::Memory,
    };
    Stop::Refused(Refusal::At(Slot::Archive, FileFault::BadArchive(fault)))
}

fn read_schema(alloc: Global, bytes: &[u8]) -> Result<Schema, Stop>
    ensures { Computes (Told schema_stop (ReadsSchema bytes.now)) result }
{
    match hm_schema_text::read_schema(alloc, bytes) {
        Ok(schema) => Ok(schema),
        Err(fault) => Err(schema_stop(fault)),
    }
}

fn read_archive(alloc: Global, bytes: &[u8]) -> Result<Archive, Stop>
    ensures { Computes (Told archive_stop (ReadsArchive bytes.now)) result }
{
    match hm_tree_text::read_archive(alloc, bytes) {
        Ok(archive) => Ok(archive),
        Err(fault) => Err(archive_stop(fault)),
    }
}

// The side of a lens file, whose view has to be the same as the schema.
fn open_view(
    alloc: Global,
    slot: Slot,
    given: HandedIn<'_>,
    schema: &Schema,
    bytes: &[u8],
) -> Result<Side, Stop>
    ensures { Computes (OpensView (handed_in given.entry means meaning) schema.now slot bytes.now) (seen side_value result) }
{
    let side = open_side(alloc, slot, given, bytes)?;
    check_view(alloc, slot, schema, &side)?;
    Ok(side)
}

// Both sides, the left one first.
fn open_sides(
    alloc: Global,
    given: HandedIn<'_>,
    schema: &Schema,
    left: &[u8],
    right: &[u8],
) -> Result<SidePair, Stop>
    ensures { Computes (OpensSides (handed_in given.entry means meaning) schema.now left.now right.now) (seen sides_of result) }
{
    let left = open_view(alloc, Slot::LensA, given, schema, left)?;
    let right = open_view(alloc, Slot::LensB, given, schema, right)?;
    Ok(SidePair { left, right })
}

// Both replicas, the left one first.
fn open_replicas(
    alloc: Global,
    given: HandedIn<'_>,
    sides: &SidePair,
    left: Vec<u8>,
    right: Vec<u8>,
) -> Result<ReplicaPair, Stop>
    requires left { IsSide (handed_in given means meaning) (side_value sides.now.left) }
    requires right { IsSide (handed_in given means meaning) (side_value sides.now.right) }
    ensures { Computes (OpensReplicas (handed_in given.entry means meaning) (sides_of sides.now) left.items right.items) (seen replicas_of result) }
{
    let left = open_replica(alloc, Slot::A, given, &sides.left, left)?;
    let right = open_replica(alloc, Slot::B, given, &sides.right, right)?;
    Ok(ReplicaPair { left, right })
}

// The values of all files, behind the schema and the sides. The bytes of the replicas are kept.
fn read_behind(
    alloc: Global,
    given: HandedIn<'_>,
    schema: Schema,
    sides: SidePair,
    archive: &[u8],
    left: Vec<u8>,
    right: Vec<u8>,
) -> Result<Inputs, Stop>
    requires left { IsSide (handed_in given means meaning) (side_value sides.left) }
    requires right { IsSide (handed_in given means meaning) (side_value sides.right) }
    ensures { Computes (ReadsBehind (handed_in given.entry means meaning) schema (sides_of sides) archive.now left.items right.items) (seen before_of result) }
{
    let archive = read_archive(alloc, archive)?;
    let replicas = open_replicas(alloc, given, &sides, left, right)?;
    Ok(Inputs {
        schema,
        sides,
        archive,
        replicas,
    })
}

// The values of the six files, by their bytes.
fn read_six(
    alloc: Global,
    given: HandedIn<'_>,
    read: (&[u8], &[u8], &[u8], &[u8]),
    left: Vec<u8>,
    right: Vec<u8>,
) -> Result<Inputs, Stop>
    ensures { Computes (ReadsSix (handed_in given.entry means meaning) read.entry.0.now read.entry.1.now read.entry.2.now read.entry.3.now left.items right.items) (seen before_of result) }
{
    let schema = read_schema(alloc, read.0)?;
    let sides = open_sides(alloc, given, &schema, read.1, read.2)?;
    read_behind(alloc, given, schema, sides, read.3, left, right)
}

/// The values of the six files, by their bytes in the order of their slots, or the first stop.
pub fn read_all(alloc: Global, given: HandedIn<'_>, mut loads: Vec<Vec<u8>>) -> Result<Inputs, Stop>
    requires { length loads.items ≡ 6 }
    ensures { Computes (ReadsAll (handed_in given.entry means meaning) (all_bytes loads)) (seen before_of result) }
{
    let Some(right) = loads.pop() else {
        unreachable!();
    };
    let Some(left) = loads.pop() else {
        unreachable!();
    };
    let [schema, lens_a, lens_b, archive] = loads.as_slice() else {
        unreachable!();
    };
    let read = (
        schema.as_slice(),
        lens_a.as_slice(),
        lens_b.as_slice(),
        archive.as_slice(),
    );
    read_six(alloc, given, read, left, right)
}
