//! Made-up files in a store in memory.
ghost use Rattle.std.specs.Prelude.{◌≡◌, IfOk, map};
ghost use Rattle.hm_outside.specs.Contents.{nothing_held};
ghost use Rattle.hm_outside.specs.Shown.{stored_in};
ghost use Rattle.hm_run_files.specs.Files.{new_of, written};
ghost use Rattle.hm_generator.specs.Generated.{generated, generated_value};
ghost use Rattle.hm_run_generated.specs.Stored.{names_value, news_named};

use crate::names::Names;
use hm_generator::{Generated, generate};
use hm_outside::MemStore;
use hm_run_files::{NewFile, Slot, write_all};
use hm_tree::Memory;
use std::alloc::Global;

// The files under their names.
fn news(names: &Names, files: Generated) -> [NewFile<'_>; 6]
    ensures { map new_of result ≡ news_named (names_value names.now) (generated_value files) }
{
    [
        NewFile {
            slot: Slot::Schema,
            name: &names.schema,
            bytes: files.schema,
        },
        NewFile {
            slot: Slot::LensA,
            name: &names.lens_a,
            bytes: files.lens_a,
        },
        NewFile {
            slot: Slot::LensB,
            name: &names.lens_b,
            bytes: files.lens_b,
        },
        NewFile {
            slot: Slot::Archive,
            name: &names.archive,
            bytes: files.archive,
        },
        NewFile {
            slot: Slot::A,
            name: &names.left,
            bytes: files.left,
        },
        NewFile {
            slot: Slot::B,
            name: &names.right,
            bytes: files.right,
        },
    ]
}

/// A store that holds the files of so many contacts under these names, and nothing else.
pub fn stored(alloc: Global, number: usize, names: &Names) -> Result<MemStore, Memory>
    ensures { IfOk result (λ store. stored_in store ≡ written nothing_held (news_named (names_value names.now) (generated number))) }
{
    let files = generate(alloc, number)?;
    let mut store = MemStore::empty(alloc);
    match write_all(&mut store, &news(names, files)) {
        Ok(()) => Ok(store),
        // No call of a store in memory fails.
        Err(_) => Err(Memory),
    }
}
