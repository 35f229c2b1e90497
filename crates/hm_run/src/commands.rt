//! What the files of a request come to, by its command.
ghost use Rattle.std.specs.Prelude.{◌≡◌, [], length, map, get_or};
ghost use Rattle.hm_command_line.specs.Requests.{request_value};
ghost use Rattle.hm_run_effects.specs.Effects.{effect_value, output_value};
ghost use Rattle.hm_run_files.specs.Steps.{Computes};
ghost use Rattle.hm_run_files.specs.Files.{all_bytes, bytes_of};
ghost use Rattle.hm_run_generated.specs.Generating.{Generates};
ghost use Rattle.hm_run_handed.specs.Handed.{handed_in};
ghost use Rattle.hm_run_sides.specs.Sides.{seen};
ghost use Rattle.hm_run_views.specs.Viewing.{ChecksLens, ViewsFile};
ghost use Rattle.hm_run_words.specs.Slots.{slots_of};
ghost use Rattle.hm_run.specs.Commands.{Reconciles, finding_of};

use crate::report::output_of;
use hm_command_line::{Command, Request};
use hm_run_effects::Effect;
use hm_run_files::Stop;
use hm_run_generated::run_generated;
use hm_run_handed::HandedIn;
use hm_run_sync::{WrittenFiles, plan};
use hm_run_views::{check_lens, view_file};
use hm_run_words::Output;
use hm_tree::Name;
use std::alloc::Global;

// The effect of a synchronisation, which is carried out or only planned.
fn reconcile<'a>(
    alloc: Global,
    writes: bool,
    quiet: bool,
    files: &'a [Name],
    given: HandedIn<'_>,
    loads: Vec<Vec<u8>>,
) -> Result<Effect<'a>, Stop>
    requires six { length files.now ≡ 6 }
    requires loads { length loads.items ≡ 6 }
    ensures { Computes (Reconciles (handed_in given.entry means meaning) writes quiet files.now (all_bytes loads)) (seen effect_value result) }
{
    let [_, _, _, archive, left, right] = files else {
        unreachable!();
    };
    let written = WrittenFiles {
        archive,
        left,
        right,
    };
    let (news, summary) = plan(alloc, written, given, loads)?;
    let output = output_of(alloc, quiet, &summary.conflicts)?;
    if !writes {
        return Ok(Effect {
            news: Vec::new(alloc),
            output,
        });
    }
    Ok(Effect {
        news: Vec::from_array(alloc, news)?,
        output,
    })
}

// The output of a lens file alone.
fn check(alloc: Global, given: HandedIn<'_>, loads: &[Vec<u8>]) -> Result<Output, Stop>
    requires { length loads.now ≡ 1 }
    ensures { Computes (ChecksLens (handed_in given.entry means meaning) (get_or (map bytes_of loads.now) 0 [])) (seen output_value result) }
{
    let [lens] = loads else {
        unreachable!();
    };
    check_lens(alloc, given, lens)
}

// The output of a lens file and a file.
fn view(alloc: Global, given: HandedIn<'_>, mut loads: Vec<Vec<u8>>) -> Result<Output, Stop>
    requires { length loads.items ≡ 2 }
    ensures { Computes (ViewsFile (handed_in given.entry means meaning) (get_or (all_bytes loads) 0 []) (get_or (all_bytes loads) 1 [])) (seen output_value result) }
{
    let Some(file) = loads.pop() else {
        unreachable!();
    };
    let [lens] = loads.as_slice() else {
        unreachable!();
    };
    view_file(alloc, given, lens, file)
}

// An output beside which nothing is written.
fn only<'a>(alloc: Global, output: Result<Output, Stop>) -> Result<Effect<'a>, Stop>
    ensures { seen effect_value result ≡ seen output_value output }
{
    Ok(Effect {
        news: Vec::new(alloc),
        output: output?,
    })
}

/// The effect of a request, by the bytes of its files in the order of their slots.
pub fn effect_of<'a>(
    alloc: Global,
    request: &'a Request,
    given: HandedIn<'_>,
    loads: Vec<Vec<u8>>,
) -> Result<Effect<'a>, Stop>
    requires files { length request.now.files.items ≡ length (slots_of request.now.command) }
    requires loads { length loads.items ≡ length (slots_of request.now.command) }
    ensures { Computes (finding_of (handed_in given.entry means meaning) (request_value request.now) (all_bytes loads)) (seen effect_value result) }
{
    let quiet = request.quiet;
    match request.command {
        Command::Sync => reconcile(alloc, true, quiet, &request.files, given, loads),
        Command::Plan => reconcile(alloc, false, quiet, &request.files, given, loads),
        Command::Check => only(alloc, check(alloc, given, &loads)),
        Command::View => only(alloc, view(alloc, given, loads)),
        Command::Generate(number) => only(alloc, run_generated(alloc, number, given)),
    }
}
