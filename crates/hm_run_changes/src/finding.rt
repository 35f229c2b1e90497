//! What the bytes of six files come to.
ghost use Rattle.std.specs.Prelude.{◌≡◌, length};
ghost use Rattle.hm_run_effects.specs.Effects.{output_value};
ghost use Rattle.hm_run_files.specs.Files.{all_bytes};
ghost use Rattle.hm_run_files.specs.Steps.{Computes};
ghost use Rattle.hm_run_handed.specs.Handed.{handed_in};
ghost use Rattle.hm_run_sides.specs.Sides.{seen};
ghost use Rattle.hm_run_changes.specs.Changing.{FindsChanges};

use crate::tell::tell;
use hm_run_files::Stop;
use hm_run_handed::HandedIn;
use hm_run_sync::{WrittenFiles, plan_of, read_all};
use hm_run_words::Output;
use hm_tree::Name;
use std::alloc::Global;

/// What is told of six files, by their bytes in the order of their slots: of those for which a plan is made.
pub fn find_changes(
    alloc: Global,
    most: Option<usize>,
    files: &[Name],
    given: HandedIn<'_>,
    loads: Vec<Vec<u8>>,
) -> Result<Output, Stop>
    requires six { length files.now ≡ 6 }
    requires loads { length loads.items ≡ 6 }
    ensures { Computes (FindsChanges (handed_in given.entry means meaning) most files.now (all_bytes loads)) (seen output_value result) }
{
    let [_, _, _, archive, left, right] = files else {
        unreachable!();
    };
    let written = WrittenFiles {
        archive,
        left,
        right,
    };
    let inputs = read_all(alloc, given, loads)?;
    // An early end here would have to let go all that was read.
    let (output, outcome) = tell(alloc, most, &inputs);
    plan_of(alloc, written, given, inputs, outcome)?;
    Ok(output?)
}
