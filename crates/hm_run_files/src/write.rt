//! Writing files, in order.
ghost use Rattle.std.specs.Prelude.{◌≡◌, ℕ, Some, Ok, Err, map, take};
ghost use Rattle.hm_outside.specs.Contents.{replaced};
ghost use Rattle.hm_run_files.specs.declared.stop.Stop.TheVariants.{Memory as OutOfMemory};
ghost use Rattle.hm_run_files.specs.Steps.{Did, Leaves, WhereTold};
ghost use Rattle.hm_run_files.specs.Files.{new_of, written, IsUnwritten, AreUnwritten};

use crate::slot::NewFile;
use crate::stop::Stop;
use hm_outside::{Kind, Store, Stored};

fn write_one<S: Store>(store: &mut S, file: &NewFile<'_>) -> Result<(), Stop>
    ensures did { Did (Leaves (S.contents store.old) (S.contents store.new) (λ c. replaced c file.now.name.now file.now.bytes.items))
        (IsUnwritten (S.contents store.old) (S.contents store.new) (new_of file.now) (S.failed store.old) (S.failed store.new))
        (S.failed store.old) (S.failed store.new) result }
    ensures memory { result ≡ Err OutOfMemory → WhereTold (S.contents store.old) (λ c. S.contents store.new ≡ Some c) }
{
    match store.replace(file.name, &file.bytes) {
        Stored::Done => Ok(()),
        Stored::Failed => Err(Stop::Fault(Kind::Replace, file.slot)),
        Stored::Memory => Err(Stop::Memory),
    }
}

/// Writes the files in their order, so that a run that is broken off and run again comes to the same end.
pub fn write_all<S: Store>(store: &mut S, files: &[NewFile<'_>]) -> Result<(), Stop>
    ensures did { Did (Leaves (S.contents store.old) (S.contents store.new) (λ c. written c (map new_of files.now)))
        (AreUnwritten (S.contents store.old) (S.contents store.new) (map new_of files.now) (S.failed store.old) (S.failed store.new))
        (S.failed store.old) (S.failed store.new) result }
    // For want of memory the first few files may be new.
    ensures memory { result ≡ Err OutOfMemory → WhereTold (S.contents store.old) (λ c.
        (n : ℕ) × (S.contents store.new ≡ Some (written c (take n (map new_of files.now))))) }
{
    for file in files {
        write_one(store, file)?;
    }
    Ok(())
}
