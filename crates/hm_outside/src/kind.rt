//! What stands under a name: a file, nothing, or what is neither.

use crate::path::is_absent;
use std::fs::Metadata;
use std::io::ErrorKind;
use std::rt::Files;
use std::{fs, io};

// None where an answer is that nothing is there.
fn unless_absent<T: Drop>(answer: io::Result<T>) -> io::Result<Option<T>> {
    match answer {
        Ok(value) => Ok(Some(value)),
        Err(error) if is_absent(&error) => Ok(None),
        Err(error) => Err(error),
    }
}

/// What is known of a file, or none where there is nothing. What is there and is no file is an error: a folder, a
/// device, a pipe or a socket is neither read nor replaced.
pub fn metadata_of<R: Files>(rt: &R, name: &str) -> io::Result<Option<Metadata>> {
    match unless_absent(fs::metadata(rt, name))? {
        Some(metadata) if !metadata.is_file() => Err(ErrorKind::InvalidInput.into()),
        other => Ok(other),
    }
}

/// Opens a file to read it, or gives none where there is nothing. Its kind is looked at first: opening a pipe waits
/// until somebody writes into it, and opening a device may set it going.
pub fn open_file<R: Files>(rt: &R, name: &str) -> io::Result<Option<R::File>> {
    if metadata_of(rt, name)?.is_none() {
        return Ok(None);
    }
    unless_absent(fs::open(rt, name))
}
