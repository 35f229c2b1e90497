//! A store and a sink in memory, which tell all that is in them, and of which calls can be made to fail.
ghost use Rattle.std.specs.Prelude.{◌≡◌, ◌≢◌, ◌<◌, ◌≤◌, cond, length, Some, OnErr, OnOk};
ghost use Rattle.hm_outside.specs.Answers.{IsWithin, LoadsFrom, ReplacesIn, PutsAfter};
ghost use Rattle.hm_outside.specs.Contents.{held, replaced};
ghost use Rattle.hm_outside.specs.Failures.{Extends, HasRisen};
ghost use Rattle.hm_outside.specs.Room.{contents_of, room_sizes, HasRoom, RoomsStay};
ghost use Rattle.hm_outside.specs.InMemory.{mem_store, mem_sink, noted, LoadsAs, ReplacesAs, PutsAs};
ghost use Rattle.hm_outside.specs.declared.outside.Kind.TheVariants.{Load, Replace};

use crate::failing::{entry_for, note};
use crate::numbered::Numbered;
use crate::outside::{Failure, Kind, Loaded, Put, Sink, Store, Stored};
use crate::room::{Room, file_at, make_room, put_file};
use hm_tree::{Memory, Name};
use std::alloc::Global;
use std::collections::BTreeMap;

/// A store in memory. Its loads and its replaces are numbered from 1 on, each kind by itself, and no call fails but those
/// that are to. A call that runs out of memory isn't counted. A name may have room for bytes, and within it a replace takes
/// no memory.
#[derive(Drop)]
pub struct MemStore {
    alloc: Global,
    rooms: BTreeMap<String, Room>,
    failed: Vec<Failure>,
    loads: Numbered,
    replaces: Numbered,
}

impl MemStore {
    ghost use Rattle.hm_outside.specs.InMemory.{mem_store, empty_store, with_failing_load, with_failing_replace, Reserves};
    ghost use Rattle.hm_outside.specs.Room.{HasRoom};
    ghost use Rattle.std.specs.Prelude.{◌≡◌, OnErr, OnOk};

    /// A store that holds nothing, and of which no call is to fail.
    pub fn empty(alloc: Global) -> MemStore
        ensures { mem_store result ≡ empty_store }
    {
        MemStore {
            alloc,
            rooms: BTreeMap::new(alloc),
            failed: Vec::new(alloc),
            loads: Numbered::new(alloc),
            replaces: Numbered::new(alloc),
        }
    }

    /// Lets the load of a number fail.
    pub fn fail_load(&mut self, number: u64) -> Result<(), Memory>
        ensures named { OnOk result (mem_store self.new ≡ with_failing_load number (mem_store self.old)) }
        ensures same { OnErr result (mem_store self.new ≡ mem_store self.old) }
    {
        Ok(self.loads.name(number, false)?)
    }

    /// Lets the replace of a number fail, and says whether the new bytes stand then. What is said last of a number counts.
    pub fn fail_replace(&mut self, number: u64, written: bool) -> Result<(), Memory>
        ensures named { OnOk result (mem_store self.new ≡ with_failing_replace number written (mem_store self.old)) }
        ensures same { OnErr result (mem_store self.new ≡ mem_store self.old) }
    {
        Ok(self.replaces.name(number, written)?)
    }

    /// Gives a name room for at least so many bytes, which no later call takes away. A replace of the name with no more
    /// bytes, which isn't to fail, takes no memory then. No file changes.
    pub fn reserve(&mut self, name: &Name, size: usize) -> Result<(), Memory>
        ensures reserves { Reserves (mem_store self.old) (mem_store self.new) }
        ensures room { OnOk result (HasRoom (mem_store self.new).rooms name.now size) }
    {
        make_room(self.alloc, &mut self.rooms, name, size)
    }
}

// What a load that doesn't fail answers.
fn load_from(alloc: Global, rooms: &BTreeMap<String, Room>, name: &Name, limit: usize) -> Loaded
    ensures within { IsWithin limit result }
    ensures calm { result ≢ Loaded.Failed }
    ensures told { LoadsFrom (held (contents_of rooms.now) name.now) limit result }
{
    match file_at(rooms, name) {
        None => Loaded::Absent,
        Some(bytes) => {
            if bytes.len() > limit {
                return Loaded::Large;
            }
            match bytes.to_vec(alloc) {
                Ok(copy) => Loaded::Bytes(copy),
                Err(_) => Loaded::Memory,
            }
        }
    }
}

// Notes a call that fails.
fn failed_call(failed: &mut Vec<Failure>, kind: Kind, name: &Name) -> Result<(), Memory>
    ensures noted { OnOk result (failed.new.items ≡ noted kind name.now failed.old.items) }
    ensures same { OnErr result (failed.new.items ≡ failed.old.items) }
{
    let entry = entry_for(failed, kind, name)?;
    note(failed, entry);
    Ok(())
}

// Puts the bytes under the name if that was said, and notes the call, which fails. Where memory runs out, nothing changes.
fn failed_replace(
    alloc: Global,
    rooms: &mut BTreeMap<String, Room>,
    failed: &mut Vec<Failure>,
    name: &Name,
    bytes: &[u8],
    written: bool,
) -> Result<(), Memory>
    ensures contents { OnOk result (contents_of rooms.new ≡ cond written (replaced (contents_of rooms.old) name.now bytes.now) (contents_of rooms.old)) }
    ensures stay { RoomsStay (room_sizes rooms.old) (room_sizes rooms.new) }
    ensures noted { OnOk result (failed.new.items ≡ noted Replace name.now failed.old.items) }
    ensures same_contents { OnErr result (contents_of rooms.new ≡ contents_of rooms.old) }
    ensures same_rooms { OnErr result (room_sizes rooms.new ≡ room_sizes rooms.old) }
    ensures same { OnErr result (failed.new.items ≡ failed.old.items) }
{
    let entry = entry_for(failed, Kind::Replace, name)?;
    if written {
        put_file(alloc, rooms, name, bytes)?;
    }
    note(failed, entry);
    Ok(())
}

impl MemStore {
    ghost use Rattle.hm_outside.specs.Answers.{IsWithin};
    ghost use Rattle.hm_outside.specs.InMemory.{mem_store, LoadsAs, ReplacesAs};

    // The load of a name, which fails where it is to.
    fn load_next(&mut self, name: &Name, limit: usize) -> Loaded
        ensures loads { LoadsAs name.now limit (mem_store self.old) result (mem_store self.new) }
        ensures within { IsWithin limit result }
    {
        let answer = match self.loads.next() {
            None => load_from(self.alloc, &self.rooms, name, limit),
            Some(_) => match failed_call(&mut self.failed, Kind::Load, name) {
                Ok(()) => Loaded::Failed,
                Err(_) => Loaded::Memory,
            },
        };
        if let Loaded::Memory = answer {
            return Loaded::Memory;
        }
        self.loads.count();
        answer
    }

    // The replace of a name, which fails where it is to.
    fn replace_next(&mut self, name: &Name, bytes: &[u8]) -> Stored
        ensures { ReplacesAs name.now bytes.now (mem_store self.old) result (mem_store self.new) }
    {
        match self.replaces.next() {
            None => {
                if put_file(self.alloc, &mut self.rooms, name, bytes).is_err() {
                    return Stored::Memory;
                }
                self.replaces.count();
                Stored::Done
            }
            Some(written) => {
                let failed = failed_replace(
                    self.alloc,
                    &mut self.rooms,
                    &mut self.failed,
                    name,
                    bytes,
                    written,
                );
                if failed.is_err() {
                    return Stored::Memory;
                }
                self.replaces.count();
                Stored::Failed
            }
        }
    }
}

impl Store for MemStore {
    ghost contents = { λ s. Some (contents_of s.rooms) };

    ghost failed = { λ s. s.failed.items };

    // As the trait says, and `loads`: it fails exactly where it is to.
    fn load(&mut self, name: &Name, limit: usize) -> Loaded
        ensures loads { LoadsAs name.now limit (mem_store self.old) result (mem_store self.new) }
        ensures contents { Some (contents_of self.new.rooms) ≡ Some (contents_of self.old.rooms) }
        ensures failed { Extends self.old.failed.items self.new.failed.items }
        ensures cause { result ≡ Loaded.Failed → HasRisen Load name.now self.old.failed.items self.new.failed.items }
        ensures calm { result ≢ Loaded.Failed → self.new.failed.items ≡ self.old.failed.items }
        ensures within { IsWithin limit result }
        ensures told { LoadsFrom (held (contents_of self.old.rooms) name.now) limit result }
    {
        self.load_next(name, limit)
    }

    // As the trait says, and `replaces`: it fails exactly where it is to, and leaves what was said then.
    fn replace(&mut self, name: &Name, bytes: &[u8]) -> Stored
        ensures replaces { ReplacesAs name.now bytes.now (mem_store self.old) result (mem_store self.new) }
        ensures failed { Extends self.old.failed.items self.new.failed.items }
        ensures cause { result ≡ Stored.Failed → HasRisen Replace name.now self.old.failed.items self.new.failed.items }
        ensures calm { result ≢ Stored.Failed → self.new.failed.items ≡ self.old.failed.items }
        ensures told { ReplacesIn (contents_of self.old.rooms) name.now bytes.now result (Some (contents_of self.new.rooms)) }
    {
        self.replace_next(name, bytes)
    }
}

/// A sink in memory. Its puts are numbered from 1 on, and none fails but those that are to. A put that runs out of memory
/// isn't counted.
#[derive(Drop)]
pub struct MemSink {
    bytes: Vec<u8>,
    // The number of each put that failed.
    faults: Vec<u64>,
    puts: Numbered,
}

impl MemSink {
    ghost use Rattle.hm_outside.specs.InMemory.{mem_sink, empty_sink, with_failing_put, PutsAs};
    ghost use Rattle.std.specs.Prelude.{◌≡◌, OnErr, OnOk};

    /// A sink with nothing written, and of which no put is to fail.
    pub fn empty(alloc: Global) -> MemSink
        ensures { mem_sink result ≡ empty_sink }
    {
        MemSink {
            bytes: Vec::new(alloc),
            faults: Vec::new(alloc),
            puts: Numbered::new(alloc),
        }
    }

    /// Lets the put of a number fail.
    pub fn fail_put(&mut self, number: u64) -> Result<(), Memory>
        ensures named { OnOk result (mem_sink self.new ≡ with_failing_put number (mem_sink self.old)) }
        ensures same { OnErr result (mem_sink self.new ≡ mem_sink self.old) }
    {
        Ok(self.puts.name(number, false)?)
    }

    /// All that was written.
    pub fn bytes(&self) -> &[u8]
        ensures { result.now ≡ (mem_sink self.now).written }
    {
        &self.bytes
    }

    // The put of a piece, which fails where it is to.
    fn put_next(&mut self, piece: &[u8]) -> Put
        ensures { PutsAs piece.now (mem_sink self.old) result (mem_sink self.new) }
    {
        match self.puts.next() {
            None => {
                if self.bytes.extend_from_slice(piece).is_err() {
                    return Put::Memory;
                }
                self.puts.count();
                Put::Done
            }
            Some(_) => {
                if self.faults.push(self.puts.count).is_err() {
                    return Put::Memory;
                }
                self.puts.count();
                Put::Failed
            }
        }
    }
}

impl Sink for MemSink {
    ghost written = { λ s. Some s.bytes.items };

    ghost faults = { λ s. length s.faults.items };

    // As the trait says, and `puts`: it fails exactly where it is to, and nothing is written then.
    fn put(&mut self, piece: &[u8]) -> Put
        ensures puts { PutsAs piece.now (mem_sink self.old) result (mem_sink self.new) }
        ensures faults { length self.old.faults.items ≤ length self.new.faults.items }
        ensures cause { result ≡ Put.Failed → length self.old.faults.items < length self.new.faults.items }
        ensures calm { result ≢ Put.Failed → length self.new.faults.items ≡ length self.old.faults.items }
        ensures told { PutsAfter self.old.bytes.items piece.now result (Some self.new.bytes.items) }
    {
        self.put_next(piece)
    }
}
