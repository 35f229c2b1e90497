//! The files of a folder in a store in memory, and what becomes of them there.

use hm_outside::{Loaded, MemStore, Store, Stored};
use hm_tree::{Memory, Name};

// One byte more than the largest file that a run takes, so that it is the run that refuses a larger one.
const MOST: usize = 16_777_217;

// What became of a file.
#[derive(Drop)]
enum Fate {
    Absent,
    Stays,
    Becomes(Vec<u8>),
}

// The bytes of a file, or none where it isn't there.
fn load<S: Store>(store: &mut S, name: &Name) -> Result<Option<Vec<u8>>, Memory> {
    match store.load(name, MOST) {
        Loaded::Bytes(bytes) => Ok(Some(bytes)),
        Loaded::Absent => Ok(None),
        _ => Err(Memory),
    }
}

fn hold(store: &mut MemStore, name: &Name, bytes: &[u8]) -> Result<(), Memory> {
    match store.replace(name, bytes) {
        Stored::Done => Ok(()),
        _ => Err(Memory),
    }
}

/// Puts what a folder has under these names into a store. Gives how many files these are.
pub fn load_named<S: Store>(
    folder: &mut S,
    names: &[Name],
    store: &mut MemStore,
) -> Result<u64, Memory> {
    let mut held: u64 = 0;
    for name in names {
        if let Some(bytes) = load(folder, name)? {
            hold(store, name, &bytes)?;
            held = held.saturating_add(1);
        }
    }
    Ok(held)
}

// What became of a file that a folder has as it was before.
fn fate_of<S: Store>(folder: &mut S, name: &Name, store: &mut MemStore) -> Result<Fate, Memory> {
    let before = load(folder, name)?;
    Ok(match load(store, name)? {
        None => Fate::Absent,
        Some(now) if before.is_some_and(|it| it.as_slice() == now.as_slice()) => Fate::Stays,
        Some(now) => Fate::Becomes(now),
    })
}

// Tells behind a text what became of the file of a name.
fn tell(text: &mut Vec<u8>, name: &Name, fate: &Fate) -> Result<(), Memory> {
    text.extend_from_slice(name.text().as_bytes())?;
    match fate {
        Fate::Absent => text.extend_from_slice(b" is absent\n")?,
        Fate::Stays => text.extend_from_slice(b" stays\n")?,
        Fate::Becomes(bytes) => {
            text.extend_from_slice(b" becomes\n")?;
            text.extend_from_slice(bytes)?;
        }
    }
    Ok(())
}

/// Tells behind a text what became of the files of these names.
pub fn tell_named<S: Store>(
    text: &mut Vec<u8>,
    folder: &mut S,
    names: &[Name],
    store: &mut MemStore,
) -> Result<(), Memory> {
    for name in names {
        tell(text, name, &fate_of(folder, name, store)?)?;
    }
    Ok(())
}
