//! What the commands that only read put out.
ghost use Rattle.hm_run_effects.specs.Effects.{output_value};
ghost use Rattle.hm_run_files.specs.Steps.{Computes};
ghost use Rattle.hm_run_handed.specs.Handed.{handed_in};
ghost use Rattle.hm_run_sides.specs.Sides.{seen};
ghost use Rattle.hm_run_views.specs.Viewing.{ChecksLens, ViewsFile};

use hm_run_files::{Slot, Stop};
use hm_run_handed::HandedIn;
use hm_run_sides::{open_replica, open_side};
use hm_run_words::Output;
use hm_schema_text::write_schema;
use hm_tree_text::write_tree;
use std::alloc::Global;

/// The schema of the views of a lens file.
pub fn check_lens(alloc: Global, given: HandedIn<'_>, lens: &[u8]) -> Result<Output, Stop>
    ensures { Computes (ChecksLens (handed_in given.entry means meaning) lens.now) (seen output_value result) }
{
    let side = open_side(alloc, Slot::LensA, given, lens)?;
    let text = write_schema(alloc, &side.typed.view)?;
    Ok(Output { status: 0, text })
}

/// The view of a file through a lens file.
pub fn view_file(
    alloc: Global,
    given: HandedIn<'_>,
    lens: &[u8],
    file: Vec<u8>,
) -> Result<Output, Stop>
    ensures { Computes (ViewsFile (handed_in given.entry means meaning) lens.now file.items) (seen output_value result) }
{
    let side = open_side(alloc, Slot::LensA, given, lens)?;
    let replica = open_replica(alloc, Slot::A, given, &side, file)?;
    let text = write_tree(alloc, &replica.view)?;
    Ok(Output { status: 0, text })
}
