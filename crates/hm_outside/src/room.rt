//! The rooms of a store in memory: under each name the bytes of its file, and room for as many bytes as were asked for.
ghost use Rattle.std.specs.Prelude.{◌≡◌, false, length, IsTrue, OnErr, OnOk};
ghost use Rattle.std.specs.Option.{option_copied};
ghost use Rattle.hm_outside.specs.Contents.{held, replaced};
ghost use Rattle.hm_outside.specs.Room.{contents_of, room_sizes, HasRoom, RoomsStay};

use hm_tree::{Memory, Name};
use std::alloc::{AllocError, Global};
use std::collections::BTreeMap;

/// The bytes of a file, and room for more; or room alone, where no file stands.
#[derive(Drop)]
pub struct Room {
    stands: bool,
    bytes: Vec<u8>,
}

/// The bytes of a file, if there is one.
pub(crate) fn file_at<'a>(rooms: &'a BTreeMap<String, Room>, name: &Name) -> Option<&'a [u8]>
    ensures { option_copied result ≡ held (contents_of rooms.now) name.now }
{
    match rooms.get(name.text()) {
        Some(room) => { if room.stands { Some(&room.bytes) } else { None } }
        None => None,
    }
}

/// Gives a name room for so many bytes. No file changes.
pub(crate) fn make_room(
    alloc: Global,
    rooms: &mut BTreeMap<String, Room>,
    name: &Name,
    size: usize,
) -> Result<(), Memory>
    ensures contents { contents_of rooms.new ≡ contents_of rooms.old }
    ensures stay { RoomsStay (room_sizes rooms.old) (room_sizes rooms.new) }
    ensures room { OnOk result (HasRoom (room_sizes rooms.new) name.now size) }
{
    if let Some(room) = rooms.get_mut(name.text()) {
        let more = size.saturating_sub(room.bytes.len());
        return Ok(room.bytes.reserve(more)?);
    }
    let key = String::from_str(alloc, name.text())?;
    let bytes = Vec::with_capacity(alloc, size)?;
    let room = Room {
        stands: false,
        bytes,
    };
    rooms.insert(key, room)?;
    Ok(())
}

// Puts bytes into the room of a name, where they have room, and says whether they had. This takes no memory.
fn fill_room(rooms: &mut BTreeMap<String, Room>, name: &Name, bytes: &[u8]) -> bool
    ensures filled { IsTrue result → contents_of rooms.new ≡ replaced (contents_of rooms.old) name.now bytes.now }
    ensures stay { RoomsStay (room_sizes rooms.old) (room_sizes rooms.new) }
    ensures same { result ≡ false → contents_of rooms.new ≡ contents_of rooms.old }
    ensures same_rooms { result ≡ false → room_sizes rooms.new ≡ room_sizes rooms.old }
    ensures small { result ≡ false → ¬ (HasRoom (room_sizes rooms.old) name.now (length bytes.now)) }
{
    let Some(room) = rooms.get_mut(name.text()) else {
        return false;
    };
    if bytes.len() > room.bytes.capacity() {
        return false;
    }
    room.bytes.clear();
    room.bytes.extend_from_slice(bytes).unwrap();
    room.stands = true;
    true
}

/// Puts the bytes under the name. Where memory runs out, nothing changes, and the name hasn't room for them.
pub(crate) fn put_file(
    alloc: Global,
    rooms: &mut BTreeMap<String, Room>,
    name: &Name,
    bytes: &[u8],
) -> Result<(), AllocError>
    ensures put { OnOk result (contents_of rooms.new ≡ replaced (contents_of rooms.old) name.now bytes.now) }
    ensures stay { RoomsStay (room_sizes rooms.old) (room_sizes rooms.new) }
    ensures same { OnErr result (contents_of rooms.new ≡ contents_of rooms.old) }
    ensures same_rooms { OnErr result (room_sizes rooms.new ≡ room_sizes rooms.old) }
    ensures small { OnErr result (¬ (HasRoom (room_sizes rooms.old) name.now (length bytes.now))) }
{
    if fill_room(rooms, name, bytes) {
        return Ok(());
    }
    let key = String::from_str(alloc, name.text())?;
    let mut held = Vec::with_capacity(alloc, bytes.len())?;
    held.extend_from_slice(bytes)?;
    let room = Room {
        stands: true,
        bytes: held,
    };
    rooms.insert(key, room)?;
    Ok(())
}
