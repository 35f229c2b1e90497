//! Where a name leads.

use std::alloc::Global;
use std::io::ErrorKind;
use std::path::PathBuf;
use std::rt::Files;
use std::{fs, io};

// How many symbolic links are followed from one name, as the system does.
const LINKS: usize = 40;

/// The folder in which a name stands. An empty name stands in none.
pub fn folder_of(name: &str) -> &str {
    match name.rfind('/') {
        Some(slash) => &name[..=slash],
        None if name.is_empty() => "",
        None => ".",
    }
}

/// Whether an error says that nothing is there.
pub fn is_absent(error: &io::Error) -> bool {
    error.kind() == ErrorKind::NotFound
}

// Whether a symbolic link stands at a path.
fn is_link<R: Files>(rt: &R, path: &str) -> io::Result<bool> {
    match fs::symlink_metadata(rt, path) {
        Ok(metadata) => Ok(metadata.is_symlink()),
        Err(error) if is_absent(&error) => Ok(false),
        Err(error) => Err(error),
    }
}

/// The path to which a name leads by way of symbolic links: that of a file, or of nothing.
pub fn follow<R: Files>(alloc: Global, rt: &R, name: &str) -> io::Result<PathBuf> {
    let mut path = PathBuf::from_str(alloc, name)?;
    for _ in 0..LINKS {
        if !is_link(rt, path.as_str())? {
            return Ok(path);
        }
        let lead = rt.read_link(alloc, path.as_str())?;
        path.pop();
        path.push(lead.as_str())?;
    }
    Err(ErrorKind::InvalidInput.into())
}

/// Looks for the folder in which the file stands, or is to be made, to which a name leads.
pub fn has_folder<R: Files>(alloc: Global, rt: &R, name: &str) -> io::Result<()> {
    let path = follow(alloc, rt, name)?;
    fs::metadata(rt, folder_of(path.as_str()))?;
    Ok(())
}
