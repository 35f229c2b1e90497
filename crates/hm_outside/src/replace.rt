//! Replacing real files.
ghost use Rattle.std.specs.Prelude.{◌≡◌, ◌↔◌, ◌<◌, IfOk, IfSome, IsTrue, length};

use crate::path::folder_of;
use std::fs::{Metadata, OpenFile, OpenOptions, Permissions};
use std::io::{ErrorKind, Read, Write};
use std::os::unix::fs::{OpenOptionsExt, PermissionsExt};
use std::rt::Files;
use std::{fs, io};

// Whether a file has these bytes, read a piece as long as the buffer at a time.
fn has_bytes<F: Read + Drop>(mut file: F, buffer: &mut [u8], bytes: &[u8]) -> io::Result<bool>
    requires { 0 < length buffer.old }
    ensures told { IfSome (F.remaining file) (λ held. IfOk result (λ same. IsTrue same ↔ (held ≡ bytes.now))) }
{
    let mut rest = bytes;
    for _ in 0..u64::MAX {
        match file.read(buffer) {
            Ok(0) => return Ok(rest.is_empty()),
            Ok(count) => match rest.strip_prefix(&buffer[..count]) {
                Some(behind) => rest = behind,
                None => return Ok(false),
            },
            Err(error) => {
                if error.kind() != ErrorKind::Interrupted {
                    return Err(error);
                }
            }
        }
    }
    Err(ErrorKind::Other.into())
}

/// Whether the file of a path, of which this is known, has these bytes.
pub fn is_held<R: Files>(
    rt: &R,
    path: &str,
    there: &Option<Metadata>,
    buffer: &mut [u8],
    bytes: &[u8],
) -> io::Result<bool>
    requires { 0 < length buffer.old }
{
    match there {
        Some(metadata) if metadata.len() == bytes.len() as u64 => {
            has_bytes(fs::open(rt, path)?, buffer, bytes)
        }
        _ => Ok(false),
    }
}

// Makes a new file with these permissions, before any byte is in it.
fn create_file<R: Files>(
    rt: &R,
    name: &str,
    permissions: Option<Permissions>,
) -> io::Result<R::File> {
    let mut options = OpenOptions::new();
    options.write(true).create_new(true);
    let Some(permissions) = permissions else {
        return options.open(rt, name);
    };
    let file = options.mode(permissions.mode()).open(rt, name)?;
    file.set_permissions(permissions)?;
    Ok(file)
}

// Fills a new file, to the disk, and renames it.
fn fill_and_rename<R: Files>(
    rt: &R,
    beside: &str,
    name: &str,
    permissions: Option<Permissions>,
    bytes: &[u8],
) -> io::Result<()> {
    let mut file = create_file(rt, beside, permissions)?;
    file.write_all(bytes)?;
    file.sync_all()?;
    drop(file);
    fs::rename(rt, beside, name)
}

// Flushes the folder of a name to the disk, so that what was renamed there stays so if the power fails. A folder that
// may be written to but not read can't be flushed, and some file systems flush no folder: neither is a fault.
fn flush_folder<R: Files>(rt: &R, name: &str) -> io::Result<()> {
    let (flushed, excused) = match fs::open(rt, folder_of(name)) {
        Ok(folder) => (folder.sync_all(), ErrorKind::InvalidInput),
        Err(error) => (Err(error), ErrorKind::PermissionDenied),
    };
    match flushed {
        Err(error) if error.kind() == excused => Ok(()),
        other => other,
    }
}

/// Puts the bytes into a file by way of a new one beside it. Another that stands there is removed first, so that the
/// new one has its own mode, and what is left of the new one after a failure is removed too.
pub fn write_file<R: Files>(
    rt: &R,
    beside: &str,
    name: &str,
    permissions: Option<Permissions>,
    bytes: &[u8],
) -> io::Result<()> {
    let _ = fs::remove_file(rt, beside);
    if let Err(error) = fill_and_rename(rt, beside, name, permissions, bytes) {
        let _ = fs::remove_file(rt, beside);
        return Err(error);
    }
    flush_folder(rt, name)
}
