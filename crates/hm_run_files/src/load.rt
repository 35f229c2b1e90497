//! Loading files, in order.
ghost use Rattle.std.specs.Prelude.{◌≡◌, length, map, IfOk};
ghost use Rattle.hm_outside.specs.Contents.{held};
ghost use Rattle.hm_outside.specs.declared.outside.Kind.TheVariants as call;
ghost use Rattle.hm_run_files.specs.Steps.{Did, Finds};
ghost use Rattle.hm_run_files.specs.Files.{file_of, bytes_of, all_bytes, load, loads, HasFailed, AreUnread, may_lack};

use crate::slot::{LIMIT, Named, Slot};
use crate::stop::{FileFault, Refusal, Stop};
use hm_outside::{Kind, Loaded, Store};
use std::alloc::Global;

fn may_lack(slot: Slot) -> bool
    ensures { result ≡ may_lack slot }
{
    matches!(slot, Slot::Archive)
}

fn load_one<S: Store>(alloc: Global, store: &mut S, file: Named<'_>) -> Result<Vec<u8>, Stop>
    ensures contents { S.contents store.new ≡ S.contents store.old }
    ensures did { Did (Finds (S.contents store.old) bytes_of (λ c. load file.entry.slot (held c file.entry.name.now)))
        (HasFailed call.Load file.entry.slot file.entry.name.now (S.failed store.old) (S.failed store.new)) (S.failed store.old) (S.failed store.new) result }
{
    match store.load(file.name, LIMIT) {
        Loaded::Bytes(bytes) => Ok(bytes),
        Loaded::Large => Err(Stop::Refused(Refusal::At(file.slot, FileFault::TooLarge))),
        Loaded::Absent => {
            if may_lack(file.slot) {
                return Ok(Vec::new(alloc));
            }
            Err(Stop::Refused(Refusal::At(file.slot, FileFault::Missing)))
        }
        Loaded::Failed => Err(Stop::Fault(Kind::Load, file.slot)),
        Loaded::Memory => Err(Stop::Memory),
    }
}

/// The bytes of the files, or the first stop; an archive that is absent has no bytes.
pub fn load_all<S: Store>(
    alloc: Global,
    store: &mut S,
    files: &[Named<'_>],
) -> Result<Vec<Vec<u8>>, Stop>
    ensures contents { S.contents store.new ≡ S.contents store.old }
    ensures did { Did (Finds (S.contents store.old) all_bytes (λ c. loads c (map file_of files.now)))
        (AreUnread (S.contents store.old) (map file_of files.now) (S.failed store.old) (S.failed store.new))
        (S.failed store.old) (S.failed store.new) result }
    ensures many { IfOk result (λ all. length all.items ≡ length files.now) }
{
    let mut loaded = Vec::new(alloc);
    for file in files {
        let bytes = load_one(alloc, store, *file)?;
        loaded.push(bytes)?;
    }
    Ok(loaded)
}
