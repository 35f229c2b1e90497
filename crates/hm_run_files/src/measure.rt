//! The sizes of the new files.
ghost use Rattle.std.specs.Prelude.{◌≡◌, map};
ghost use Rattle.hm_run_files.specs.Steps.{Computes};
ghost use Rattle.hm_run_files.specs.Files.{new_of, is_overgrown, measures};

use crate::slot::{LIMIT, NewFile};
use crate::stop::{FileFault, Refusal, Stop};

// Whether a new file has more bytes than a file may have.
fn is_overgrown(file: &NewFile<'_>) -> bool
    ensures { result ≡ is_overgrown (new_of file.now) }
{
    file.bytes.len() > LIMIT
}

/// Whether each of the new files is as small as a file has to be; else the first that isn't is refused.
#[tactic(auto, unfolding(crate::specs::Files::measures))]
pub fn measure_all(files: &[NewFile<'_>]) -> Result<(), Stop>
    ensures { Computes (λ found. measures (map new_of files.now) ≡ found) result }
{
    for file in files {
        if is_overgrown(file) {
            let size = file.bytes.len();
            return Err(Stop::Refused(Refusal::At(file.slot, FileFault::Overgrown(size))));
        }
    }
    Ok(())
}
