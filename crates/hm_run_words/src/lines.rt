//! What a run that stops says, in one line, and the exit status of each end.
ghost use Rattle.std.specs.Prelude.{◌≡◌, ◌++◌, ◌∷◌, [], codes, IfOk, OnOk};
ghost use Rattle.std.specs.Fmt.{decimal};
ghost use Rattle.hm_run_files.specs.declared.stop.FileFault.TheVariants.{Mistyped, TwinLeft, BadReplica};
ghost use Rattle.hm_tree_spelling.specs.Spelling.{spelled};
ghost use Rattle.hm_run_words.specs.Lines.{slot_name, archive_fault_text, replica_fault_text, slot_and_name, slot_and_number, fault_text, refusal_text, call_name, stop_text, line_of, refusal_status, work_status, status_of};

use crate::ending::{Ending, Output};
use hm_outside::{Kind, Put};
use hm_run_files::{ArchiveFault, FileFault, Refusal, ReplicaFault, Slot, Stop};
use hm_tree::{Memory, Name};
use hm_tree_spelling::{append_path, append_spelled};
use std::alloc::Global;

fn slot_name(slot: Slot) -> &'static [u8]
    ensures { result.now ≡ slot_name slot }
{
    match slot {
        Slot::Schema => b"schema",
        Slot::LensA => b"lensA",
        Slot::LensB => b"lensB",
        Slot::Archive => b"archive",
        Slot::A => b"A",
        Slot::B => b"B",
    }
}

fn call_name(kind: Kind) -> &'static [u8]
    ensures { result.now ≡ call_name kind }
{
    match kind {
        Kind::Load => b"ReadFault ",
        Kind::Replace => b"WriteFault ",
    }
}

// Puts some bytes, and then the name of a slot, behind a line.
fn put_slot(line: &mut Vec<u8>, before: &[u8], slot: Slot) -> Result<(), Memory>
    ensures { OnOk result (line.new.items ≡ line.old.items ++ (before.now ++ slot_name slot)) }
{
    line.extend_from_slice(before)?;
    line.extend_from_slice(slot_name(slot))?;
    Ok(())
}

// Puts some bytes, and then a number, behind a line.
fn put_number(alloc: Global, line: &mut Vec<u8>, before: &[u8], number: usize) -> Result<(), Memory>
    ensures { OnOk result (line.new.items ≡ line.old.items ++ (before.now ++ decimal number)) }
{
    let digits = format!(in alloc; "{number}")?;
    line.extend_from_slice(before)?;
    line.extend_from_slice(digits.as_bytes())?;
    Ok(())
}

// Puts that an archive isn't read behind a line.
fn put_bad_archive(alloc: Global, line: &mut Vec<u8>, fault: ArchiveFault) -> Result<(), Memory>
    ensures { OnOk result (line.new.items ≡ line.old.items ++ (codes "BadArchive " ++ archive_fault_text fault)) }
{
    match fault {
        ArchiveFault::At(at) => put_number(alloc, line, b"BadArchive at ", at),
        ArchiveFault::Deep => Ok(line.extend_from_slice(b"BadArchive deep")?),
    }
}

// Puts a space, and then what is wrong with a replica, behind a line.
fn put_replica_fault(alloc: Global, line: &mut Vec<u8>, fault: &ReplicaFault) -> Result<(), Memory>
    ensures { OnOk result (line.new.items ≡ line.old.items ++ (codes " " ++ replica_fault_text fault.now)) }
{
    match fault {
        ReplicaFault::NotUtf8(at) => put_number(alloc, line, b" NotUtf8 ", *at),
        ReplicaFault::BadItem(at) => put_number(alloc, line, b" BadItem ", *at),
        ReplicaFault::NoKey(at) => put_number(alloc, line, b" NoKey ", *at),
        ReplicaFault::TooDeep(depth) => put_number(alloc, line, b" TooDeep ", *depth),
        ReplicaFault::Outside(path) => {
            line.extend_from_slice(b" Outside ")?;
            append_path(path, line)
        }
    }
}

// Puts that a replica isn't read behind a line.
fn put_bad_replica(
    alloc: Global,
    line: &mut Vec<u8>,
    slot: Slot,
    fault: &ReplicaFault,
) -> Result<(), Memory>
    ensures { OnOk result (line.new.items ≡ line.old.items ++ fault_text slot (BadReplica fault.now)) }
{
    put_slot(line, b"BadReplica ", slot)?;
    put_replica_fault(alloc, line, fault)
}

// Puts some bytes, a slot and a number behind a line.
#[tactic(auto, using(crate::proofs::Behind::behind_both))]
fn put_slot_number(
    alloc: Global,
    line: &mut Vec<u8>,
    before: &[u8],
    slot: Slot,
    number: usize,
) -> Result<(), Memory>
    ensures { OnOk result (line.new.items ≡ line.old.items ++ slot_and_number before.now slot number) }
{
    put_slot(line, before, slot)?;
    put_number(alloc, line, b" ", number)
}

// Puts some bytes, and then the spelling of a name, behind a line.
fn put_name(line: &mut Vec<u8>, before: &[u8], name: &Name) -> Result<(), Memory>
    ensures { OnOk result (line.new.items ≡ line.old.items ++ (before.now ++ spelled name.now)) }
{
    line.extend_from_slice(before)?;
    append_spelled(name, line)
}

// Puts some bytes, a slot and a name behind a line.
#[tactic(auto, using(crate::proofs::Behind::behind_both))]
fn put_slot_name(line: &mut Vec<u8>, before: &[u8], slot: Slot, name: &Name) -> Result<(), Memory>
    ensures { OnOk result (line.new.items ≡ line.old.items ++ slot_and_name before.now slot name.now) }
{
    put_slot(line, before, slot)?;
    put_name(line, b" ", name)
}

// Puts that a view has twins behind a line.
#[tactic(auto, using(crate::proofs::Behind::behind_both))]
fn put_twins(
    alloc: Global,
    line: &mut Vec<u8>,
    slot: Slot,
    definition: usize,
    term: usize,
) -> Result<(), Memory>
    ensures { OnOk result (line.new.items ≡ line.old.items ++ fault_text slot (TwinLeft definition term)) }
{
    put_slot_number(alloc, line, b"TwinLeft ", slot, definition)?;
    put_number(alloc, line, b" ", term)
}

// Puts the numbers of a lens and of a rule behind a line.
#[tactic(auto, using(crate::proofs::Behind::behind_both))]
fn put_rule(alloc: Global, line: &mut Vec<u8>, term: usize, rule: u8) -> Result<(), Memory>
    ensures { OnOk result (line.new.items ≡ line.old.items ++ (codes " " ++ decimal term ++ codes " " ++ decimal rule)) }
{
    put_number(alloc, line, b" ", term)?;
    put_number(alloc, line, b" ", usize::from(rule))
}

// Puts that a condition of a lens isn't met behind a line.
#[tactic(auto, using(crate::proofs::Behind::behind_both))]
fn put_mistyped(
    alloc: Global,
    line: &mut Vec<u8>,
    slot: Slot,
    definition: usize,
    term: usize,
    rule: u8,
) -> Result<(), Memory>
    ensures { OnOk result (line.new.items ≡ line.old.items ++ fault_text slot (Mistyped definition term rule)) }
{
    put_slot_number(alloc, line, b"Mistyped ", slot, definition)?;
    put_rule(alloc, line, term, rule)
}

// Puts what is wrong with the file of a slot behind a line.
fn put_fault(alloc: Global, line: &mut Vec<u8>, slot: Slot, fault: &FileFault) -> Result<(), Memory>
    ensures { OnOk result (line.new.items ≡ line.old.items ++ fault_text slot fault.now) }
{
    match fault {
        FileFault::Missing => put_slot(line, b"Missing ", slot),
        FileFault::TooLarge => put_slot(line, b"TooLarge ", slot),
        FileFault::BadSchema(at) => put_number(alloc, line, b"BadSchema ", *at),
        FileFault::BadLens(at) => put_slot_number(alloc, line, b"BadLens ", slot, *at),
        FileFault::UnknownFormat(name) => put_slot_name(line, b"UnknownFormat ", slot, name),
        FileFault::BadOption(key) => put_slot_name(line, b"BadOption ", slot, key),
        FileFault::UnknownLens(name) => put_slot_name(line, b"UnknownLens ", slot, name),
        FileFault::Unguarded(name) => put_slot_name(line, b"Unguarded ", slot, name),
        FileFault::Mistyped(definition, term, rule) => {
            put_mistyped(alloc, line, slot, *definition, *term, *rule)
        }
        FileFault::TwinLeft(definition, term) => put_twins(alloc, line, slot, *definition, *term),
        FileFault::WrongView => put_slot(line, b"WrongView ", slot),
        FileFault::BadArchive(fault) => put_bad_archive(alloc, line, *fault),
        FileFault::BadReplica(fault) => put_bad_replica(alloc, line, slot, fault),
        FileFault::Unwritable(depth) => put_slot_number(alloc, line, b"Unwritable ", slot, *depth),
        FileFault::Overgrown(size) => put_slot_number(alloc, line, b"Overgrown ", slot, *size),
    }
}

// Puts a refusal behind a line.
fn put_refusal(alloc: Global, line: &mut Vec<u8>, refusal: &Refusal) -> Result<(), Memory>
    ensures { OnOk result (line.new.items ≡ line.old.items ++ refusal_text refusal.now) }
{
    match refusal {
        Refusal::Usage => Ok(line.extend_from_slice(
            b"usage: harmony [--quiet] sync|plan SCHEMA LENS_A LENS_B ARCHIVE A B, check LENS, view LENS FILE, gen N",
        )?),
        Refusal::SameName(one, two) => {
            put_slot(line, b"harmony: SameName ", *one)?;
            put_slot(line, b" ", *two)
        }
        Refusal::At(slot, fault) => {
            line.extend_from_slice(b"harmony: ")?;
            put_fault(alloc, line, *slot, fault)
        }
    }
}

// Puts what a run that stopped so says behind a line.
fn put_stop(alloc: Global, line: &mut Vec<u8>, stop: &Stop) -> Result<(), Memory>
    ensures { OnOk result (line.new.items ≡ line.old.items ++ stop_text stop.now) }
{
    match stop {
        Stop::Refused(refusal) => put_refusal(alloc, line, refusal),
        Stop::Fault(kind, slot) => {
            line.extend_from_slice(b"harmony: ")?;
            put_slot(line, call_name(*kind), *slot)
        }
        Stop::Memory => Ok(()),
    }
}

/// The line that a run that stopped so puts out; no bytes for want of memory.
pub fn line_of(alloc: Global, stop: &Stop) -> Result<Vec<u8>, Memory>
    ensures { IfOk result (λ line. line.items ≡ line_of stop.now) }
{
    let mut line = Vec::new(alloc);
    if let Stop::Memory = stop {
        return Ok(line);
    }
    put_stop(alloc, &mut line, stop)?;
    line.push(b'\n')?;
    Ok(line)
}

fn refusal_status(refusal: &Refusal) -> u8
    ensures { result ≡ refusal_status refusal.now }
{
    match refusal {
        Refusal::Usage => 2,
        _ => 3,
    }
}

// Of a run whose work came to this, where all that it had to say was put out.
fn work_status(work: &Result<Output, Stop>) -> u8
    ensures { result ≡ work_status work.now }
{
    match work {
        Ok(output) => output.status,
        Err(Stop::Refused(refusal)) => refusal_status(refusal),
        Err(Stop::Fault(_, _)) => 4,
        Err(Stop::Memory) => 5,
    }
}

/// The exit status of a run that ends so: 0 agreed, 1 conflicts remain, 2 usage, 3 refused, 4 a fault of the store,
/// 5 want of memory, 6 a fault of the sink while the output was put.
pub fn status_of(ending: &Ending) -> u8
    ensures { result ≡ status_of ending.now }
{
    match (&ending.work, ending.put) {
        (Ok(_), Put::Failed) => 6,
        (_, Put::Memory) => 5,
        (work, _) => work_status(work),
    }
}
