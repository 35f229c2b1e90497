//! The replicas of sides.
ghost use Rattle.std.specs.Prelude.{IfOk, map};
ghost use Rattle.hm_schema.specs.Membership.{IsMemberTree};
ghost use Rattle.hm_replica.specs.Bases.{IsBase};
ghost use Rattle.hm_replica.specs.Replicas.{ReplicaValue, typed_value, replica_value, IsFitting, IsReplica};
ghost use Rattle.hm_run_files.specs.Steps.{Computes};
ghost use Rattle.hm_run_files.specs.Files.{bytes_of};
ghost use Rattle.hm_run_handed.specs.Handed.{handed_in};
ghost use Rattle.hm_run_sides.specs.Sides.{seen, side_value, IsSide};
ghost use Rattle.hm_run_sides.specs.SideReplicas.{OpensReplica, OpensOn, ClosesReplica, ClosesOn, IsReplicaOn, IsBaseOn};

use crate::side::Side;
use crate::stops::{format_stop, write_stop};
use hm_format::Format;
use hm_replica::{Base, Replica};
use hm_run_files::{Slot, Stop};
use hm_run_handed::HandedIn;
use hm_terms::Typed;
use hm_text_lens::TextLens;
use hm_tree::Tree;
use std::alloc::Global;

/// The replica of a file on a side, or why the side's format doesn't read it.
pub fn open_replica(
    alloc: Global,
    slot: Slot,
    given: HandedIn<'_>,
    side: &Side,
    bytes: Vec<u8>,
) -> Result<Replica, Stop>
    requires { IsSide (handed_in given means meaning) (side_value side.now) }
    ensures opens { Computes (OpensOn (handed_in given.entry means meaning) (side_value side.now) slot bytes.items) (seen replica_value result) }
    ensures replica { IfOk result (λ r. IsReplicaOn (handed_in given.entry means meaning) (side_value side.now) (replica_value r)) }
    ensures member { IfOk result (λ r. IsMemberTree side.now.typed.view r.view) }
{
    let HandedIn { formats, texts } = given;
    open_by(alloc, slot, &formats[side.place], texts, &side.typed, bytes)
}

// The same by a format.
fn open_by(
    alloc: Global,
    slot: Slot,
    format: &Box<dyn Format>,
    texts: &[Box<dyn TextLens>],
    typed: &Typed,
    bytes: Vec<u8>,
) -> Result<Replica, Stop>
    requires { IsFitting (means format.now) (map (λ b. meaning b) texts.now) (typed_value typed.now) }
    ensures opens { Computes (OpensReplica (means format.now) (map (λ b. meaning b) texts.now) (typed_value typed.now) slot bytes.items) (seen replica_value result) }
    ensures member { IfOk result (λ r. IsMemberTree typed.now.view r.view) }
{
    match Replica::from_bytes(alloc, format, typed, texts, bytes) {
        Ok(replica) => Ok(replica),
        Err(fault) => Err(format_stop(slot, fault)),
    }
}

/// The bytes of a view, a member of the schema of the side's views, behind those of its replica; refused where the tree that
/// is put of it is deeper than the side's format writes.
pub fn close_replica(
    alloc: Global,
    slot: Slot,
    given: HandedIn<'_>,
    side: &Side,
    replica: Replica,
    view: Tree,
) -> Result<Vec<u8>, Stop>
    requires side { IsSide (handed_in given means meaning) (side_value side.now) }
    requires replica { IsReplicaOn (handed_in given means meaning) (side_value side.now) (replica_value replica) }
    requires member { IsMemberTree side.now.typed.view view }
    ensures { Computes (ClosesOn (handed_in given.entry means meaning) (side_value side.now) (replica_value replica) view slot) (seen bytes_of result) }
{
    let HandedIn { formats, texts } = given;
    close_by(
        alloc,
        slot,
        &formats[side.place],
        texts,
        &side.typed,
        replica,
        view,
    )
}

// The same by a format.
fn close_by(
    alloc: Global,
    slot: Slot,
    format: &Box<dyn Format>,
    texts: &[Box<dyn TextLens>],
    typed: &Typed,
    replica: Replica,
    view: Tree,
) -> Result<Vec<u8>, Stop>
    requires typed { IsFitting (means format.now) (map (λ b. meaning b) texts.now) (typed_value typed.now) }
    requires replica { IsReplica (means format.now) (map (λ b. meaning b) texts.now) (typed_value typed.now) (replica_value replica) }
    requires member { IsMemberTree typed.now.view view }
    ensures { Computes (ClosesReplica (means format.now) (map (λ b. meaning b) texts.now) (typed_value typed.now) (replica_value replica) view slot) (seen bytes_of result) }
{
    match replica.close(alloc, format, typed, texts, view) {
        Ok(bytes) => Ok(bytes),
        Err(fault) => Err(write_stop(slot, fault)),
    }
}

/// The same of a replica whose view was taken, by what a new one is put over.
pub fn close_base(
    alloc: Global,
    slot: Slot,
    given: HandedIn<'_>,
    side: &Side,
    base: Base,
    view: Tree,
) -> Result<Vec<u8>, Stop>
    requires side { IsSide (handed_in given means meaning) (side_value side.now) }
    requires replica { (r : ReplicaValue) × IsBaseOn (handed_in given means meaning) (side_value side.now) r base }
    requires member { IsMemberTree side.now.typed.view view }
    ensures { (r : ReplicaValue) → IsBaseOn (handed_in given.entry means meaning) (side_value side.now) r base → Computes (ClosesOn (handed_in given.entry means meaning) (side_value side.now) r view slot) (seen bytes_of result) }
{
    let HandedIn { formats, texts } = given;
    close_base_by(
        alloc,
        slot,
        &formats[side.place],
        texts,
        &side.typed,
        base,
        view,
    )
}

// The same by a format.
fn close_base_by(
    alloc: Global,
    slot: Slot,
    format: &Box<dyn Format>,
    texts: &[Box<dyn TextLens>],
    typed: &Typed,
    base: Base,
    view: Tree,
) -> Result<Vec<u8>, Stop>
    requires typed { IsFitting (means format.now) (map (λ b. meaning b) texts.now) (typed_value typed.now) }
    requires replica { (r : ReplicaValue) × IsBase r base × IsReplica (means format.now) (map (λ b. meaning b) texts.now) (typed_value typed.now) r }
    requires member { IsMemberTree typed.now.view view }
    ensures { (r : ReplicaValue) → IsBase r base → IsReplica (means format.now) (map (λ b. meaning b) texts.now) (typed_value typed.now) r → Computes (ClosesReplica (means format.now) (map (λ b. meaning b) texts.now) (typed_value typed.now) r view slot) (seen bytes_of result) }
{
    match base.close(alloc, format, typed, texts, view) {
        Ok(bytes) => Ok(bytes),
        Err(fault) => Err(write_stop(slot, fault)),
    }
}
