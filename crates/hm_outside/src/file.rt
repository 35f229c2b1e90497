//! Real files. The system is trusted with them, and no contract tells what is in them.
ghost use Rattle.std.specs.Prelude.{◌≡◌, ℕ, ◌<◌, None, Some, IfOk, IfSome, length, vec_len};
ghost use Rattle.hm_outside.specs.Answers.{IsWithin, LoadsFrom};

use crate::failing::{entry_for, note};
use crate::kind::{metadata_of, open_file};
use crate::outside::{Failure, Kind, Loaded, Store, Stored};
use crate::path::{follow, has_folder, is_absent};
use crate::replace::{is_held, write_file};
use crate::seen::{Seen, Stamp, is_another, is_changed, is_loaded, keep, room_for};
use hm_tree::Name;
use std::alloc::{AllocError, Global};
use std::fs::OpenFile;
use std::io::{ErrorKind, Read};
use std::path::PathBuf;
use std::rt::Files;
use std::{fs, io};

// How many bytes are asked for at a time.
const PIECE: usize = 65536;

/// The files of a runtime: a name is a path, and its bytes are those of the file there.
///
/// `load` reads at most one byte past the limit. What is there and is no file is a failed call, and isn't opened: a
/// folder, a device, or a pipe, which would have to be waited for. So is a file that was loaded under another name. Only
/// what is not there, in a folder that is, is absent.
///
/// `replace` leaves alone a file that has the bytes, and fails where it is not as it was loaded: another program has
/// changed it meanwhile. Else it fills NAME.harmony-new, which has the mode of the file that it replaces before it has
/// any byte, flushes it to the disk, renames it to NAME and flushes their folder. NAME is what the name leads to by way
/// of symbolic links, which stay. What is there and is no file, as a device, is not replaced: the call fails. What
/// stood there under NAME.harmony-new is removed, unless it was loaded too: then the call fails. A call that fails
/// removes the new file if it can.
#[derive(Drop)]
pub struct FileStore<R: Files + Drop> {
    alloc: Global,
    rt: R,
    failed: Vec<Failure>,
    seen: Vec<Seen>,
}

impl<R: Files + Drop> FileStore<R> {
    ghost use Rattle.hm_outside.specs.Shown.{failed_calls};
    ghost use Rattle.std.specs.Prelude.{◌≡◌, []};

    /// The files of this runtime, with no failed call.
    pub fn new(alloc: Global, rt: R) -> FileStore<R>
        ensures { failed_calls result ≡ [] }
    {
        FileStore {
            alloc,
            rt,
            failed: Vec::new(alloc),
            seen: Vec::new(alloc),
        }
    }
}

// Room for one piece.
fn new_buffer(alloc: Global) -> Result<Vec<u8>, AllocError>
    ensures { IfOk result (λ buffer. vec_len buffer ≡ PIECE) }
{
    vec![in alloc; 0u8; PIECE]
}

// What is loaded from an open file that isn't one of those that were loaded under other names, and its stamp.
fn read_open<F: OpenFile + Read + Drop>(
    alloc: Global,
    file: F,
    name: &Name,
    seen: &[Seen],
    buffer: &mut [u8],
    limit: usize,
) -> (Loaded, Option<Stamp>)
    requires { 0 < length buffer.old }
    ensures { IsWithin limit result.0 }
{
    let Ok(metadata) = file.metadata() else {
        return (Loaded::Failed, None);
    };
    let stamp = Stamp::of(&metadata);
    if !metadata.is_file() || is_another(seen, name, &stamp) {
        return (Loaded::Failed, None);
    }
    (read_all(alloc, file, buffer, limit), Some(stamp))
}

// Why a call gave up.
#[derive(Drop)]
enum Fault {
    Failed,
    Memory,
}

fn fault_of(error: &io::Error) -> Fault {
    if error.kind() == ErrorKind::OutOfMemory {
        Fault::Memory
    } else {
        Fault::Failed
    }
}

// What is loaded where nothing can be opened: there must be a folder in which the file can be made.
fn read_nothing<R: Files>(alloc: Global, rt: &R, name: &str) -> Loaded
    ensures { (limit : ℕ) → IsWithin limit result }
{
    match has_folder(alloc, rt, name) {
        Ok(()) => Loaded::Absent,
        Err(error) => match fault_of(&error) {
            Fault::Failed => Loaded::Failed,
            Fault::Memory => Loaded::Memory,
        },
    }
}

// What is loaded of a name, and the stamp of its file.
fn read<R: Files>(
    alloc: Global,
    rt: &R,
    seen: &[Seen],
    name: &Name,
    limit: usize,
) -> (Loaded, Option<Stamp>)
    ensures { IsWithin limit result.0 }
{
    let Ok(mut buffer) = new_buffer(alloc) else {
        return (Loaded::Memory, None);
    };
    match open_file(rt, name.text()) {
        Ok(Some(file)) => read_open(alloc, file, name, seen, &mut buffer, limit),
        Ok(None) => (read_nothing(alloc, rt, name.text()), None),
        Err(_) => (Loaded::Failed, None),
    }
}

// Reads to the end, or until there is one byte more than the limit, a piece as long as the buffer at a time.
fn read_all<F: Read + Drop>(alloc: Global, mut file: F, buffer: &mut [u8], limit: usize) -> Loaded
    requires { 0 < length buffer.old }
    ensures within { IsWithin limit result }
    ensures told { IfSome (F.remaining file) (λ rest. LoadsFrom (Some rest) limit result) }
{
    let mut bytes = Vec::new(alloc);
    for _ in 0..u64::MAX {
        let asked = (limit - bytes.len()).min(buffer.len() - 1) + 1;
        match file.read(&mut buffer[..asked]) {
            Ok(0) => return Loaded::Bytes(bytes),
            Ok(count) => {
                if count > limit - bytes.len() {
                    return Loaded::Large;
                }
                if bytes.extend_from_slice(&buffer[..count]).is_err() {
                    return Loaded::Memory;
                }
            }
            Err(error) => {
                if error.kind() != ErrorKind::Interrupted {
                    return Loaded::Failed;
                }
            }
        }
    }
    Loaded::Failed
}

// The path to which a name leads, and that of the new file beside it.
fn paths_of<R: Files>(alloc: Global, rt: &R, name: &str) -> io::Result<(PathBuf, String)> {
    let path = follow(alloc, rt, name)?;
    let text = path.as_str();
    let beside = format!(in alloc; "{text}.harmony-new")?;
    Ok((path, beside))
}

// Whether what stands at a path, or where a link there leads, is a file that was loaded.
fn is_taken<R: Files>(rt: &R, seen: &[Seen], path: &str) -> io::Result<bool> {
    match fs::metadata(rt, path) {
        Ok(metadata) => Ok(is_loaded(seen, &Stamp::of(&metadata))),
        Err(error) if is_absent(&error) => Ok(false),
        Err(error) => Err(error),
    }
}

// Puts bytes into the file of a path, where it is as it was loaded, and gives its new stamp.
fn put_bytes<R: Files>(
    rt: &R,
    seen: &[Seen],
    name: &Name,
    path: &str,
    beside: &str,
    buffer: &mut [u8],
    bytes: &[u8],
) -> io::Result<Option<Stamp>>
    requires { 0 < length buffer.old }
{
    let there = metadata_of(rt, path)?;
    let stamp = there.as_ref().map(Stamp::of);
    if is_changed(seen, name, stamp) {
        return Err(ErrorKind::Other.into());
    }
    if is_held(rt, path, &there, buffer, bytes)? {
        return Ok(stamp);
    }
    if is_taken(rt, seen, beside)? {
        return Err(ErrorKind::Other.into());
    }
    write_file(
        rt,
        beside,
        path,
        there.map(|metadata| metadata.permissions()),
        bytes,
    )?;
    Ok(metadata_of(rt, path)?.as_ref().map(Stamp::of))
}

// Puts bytes under a name, and gives the new stamp of its file. All memory is taken before a file is touched.
fn put<R: Files>(
    alloc: Global,
    rt: &R,
    seen: &[Seen],
    name: &Name,
    bytes: &[u8],
) -> Result<Option<Stamp>, Fault> {
    let Ok(mut buffer) = new_buffer(alloc) else {
        return Err(Fault::Memory);
    };
    let (path, beside) = match paths_of(alloc, rt, name.text()) {
        Ok(paths) => paths,
        Err(error) => return Err(fault_of(&error)),
    };
    match put_bytes(
        rt,
        seen,
        name,
        path.as_str(),
        beside.as_str(),
        &mut buffer,
        bytes,
    ) {
        Ok(stamp) => Ok(stamp),
        Err(_) => Err(Fault::Failed),
    }
}

impl<R: Files + Drop> Store for FileStore<R> {
    ghost contents = { λ _. None };

    ghost failed = { λ s. s.failed.items };

    fn load(&mut self, name: &Name, limit: usize) -> Loaded {
        let Ok(entry) = entry_for(&mut self.failed, Kind::Load, name) else {
            return Loaded::Memory;
        };
        let Ok(copy) = room_for(&mut self.seen, name) else {
            return Loaded::Memory;
        };
        let (loaded, stamp) = read(self.alloc, &self.rt, &self.seen, name, limit);
        match loaded {
            Loaded::Failed => {
                note(&mut self.failed, entry);
                Loaded::Failed
            }
            loaded => {
                keep(&mut self.seen, copy, stamp);
                loaded
            }
        }
    }

    fn replace(&mut self, name: &Name, bytes: &[u8]) -> Stored {
        let Ok(entry) = entry_for(&mut self.failed, Kind::Replace, name) else {
            return Stored::Memory;
        };
        let Ok(copy) = room_for(&mut self.seen, name) else {
            return Stored::Memory;
        };
        match put(self.alloc, &self.rt, &self.seen, name, bytes) {
            Ok(stamp) => {
                keep(&mut self.seen, copy, stamp);
                Stored::Done
            }
            Err(Fault::Failed) => {
                note(&mut self.failed, entry);
                Stored::Failed
            }
            Err(Fault::Memory) => Stored::Memory,
        }
    }
}
