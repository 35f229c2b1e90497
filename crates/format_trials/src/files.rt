//! The files that words name.
use hm_outside::{Loaded, Store};
use hm_tree::{Memory, Name};
use std::alloc::Global;

// How many bytes are read of a file.
const LIMIT: usize = 67_108_864;

/// The bytes of a file.
pub fn load<S: Store>(store: &mut S, name: &Name) -> Result<Vec<u8>, Memory> {
    match store.load(name, LIMIT) {
        Loaded::Bytes(bytes) => Ok(bytes),
        _ => Err(Memory),
    }
}

/// The same of a file that may be absent, which has none then.
pub fn load_if_there<S: Store>(
    alloc: Global,
    store: &mut S,
    name: &Name,
) -> Result<Vec<u8>, Memory> {
    match store.load(name, LIMIT) {
        Loaded::Bytes(bytes) => Ok(bytes),
        Loaded::Absent => Ok(Vec::new(alloc)),
        _ => Err(Memory),
    }
}

/// The bytes of the file at a place among some, of which there are none where no file stands there.
pub fn load_at<S: Store>(
    alloc: Global,
    store: &mut S,
    files: &[Name],
    place: usize,
) -> Result<Vec<u8>, Memory> {
    match files.get(place) {
        Some(name) => load(store, name),
        None => Ok(Vec::new(alloc)),
    }
}
