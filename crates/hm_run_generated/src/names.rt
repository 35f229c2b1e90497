//! The names of made-up files.
ghost use Rattle.std.specs.Prelude.{◌≡◌, IfOk, map};
ghost use Rattle.hm_run_files.specs.Files.{file_of};
ghost use Rattle.hm_run_sync.specs.Verdict.{names_in};
ghost use Rattle.hm_run_generated.specs.Stored.{names_value, store_names, files_named, new_names};

use hm_run_files::{Named, Slot};
use hm_run_sync::WrittenFiles;
use hm_tree::{Memory, Name};
use std::alloc::Global;

/// The names of the six files in a store of their own: each is that of its slot.
#[derive(Drop)]
pub struct Names {
    pub schema: Name,
    pub lens_a: Name,
    pub lens_b: Name,
    pub archive: Name,
    pub left: Name,
    pub right: Name,
}

/// The names.
pub fn store_names(alloc: Global) -> Result<Names, Memory>
    ensures { IfOk result (λ names. names_value names ≡ store_names) }
{
    Ok(Names {
        schema: Name::from_text(alloc, "schema")?,
        lens_a: Name::from_text(alloc, "lensA")?,
        lens_b: Name::from_text(alloc, "lensB")?,
        archive: Name::from_text(alloc, "archive")?,
        left: Name::from_text(alloc, "A")?,
        right: Name::from_text(alloc, "B")?,
    })
}

impl Names {
    /// Each with its slot, in the order in which the files are loaded.
    pub fn slots(&self) -> [Named<'_>; 6]
        ensures { map file_of result ≡ files_named (names_value self.now) }
    {
        [
            Named {
                slot: Slot::Schema,
                name: &self.schema,
            },
            Named {
                slot: Slot::LensA,
                name: &self.lens_a,
            },
            Named {
                slot: Slot::LensB,
                name: &self.lens_b,
            },
            Named {
                slot: Slot::Archive,
                name: &self.archive,
            },
            Named {
                slot: Slot::A,
                name: &self.left,
            },
            Named {
                slot: Slot::B,
                name: &self.right,
            },
        ]
    }

    /// Those of the files that a synchronisation writes.
    pub fn written(&self) -> WrittenFiles<'_>
        ensures { names_in result ≡ new_names (names_value self.now) }
    {
        WrittenFiles {
            archive: &self.archive,
            left: &self.left,
            right: &self.right,
        }
    }
}
