//! The slots of each command, and the files of a request.
ghost use Rattle.std.specs.Prelude.{◌≡◌, ◌++◌, IfOk, OnOk, map};
ghost use Rattle.hm_command_line.specs.Requests.{request_value};
ghost use Rattle.hm_run_files.specs.Files.{file_of};
ghost use Rattle.hm_run_words.specs.Slots.{slots_of, paired, files_of};

use hm_command_line::{Command, Request};
use hm_run_files::{Named, Slot};
use hm_tree::{Memory, Name};
use std::alloc::Global;

static SIX: [Slot; 6] = [
    Slot::Schema,
    Slot::LensA,
    Slot::LensB,
    Slot::Archive,
    Slot::A,
    Slot::B,
];

static LENS: [Slot; 1] = [Slot::LensA];

static LENS_AND_FILE: [Slot; 2] = [Slot::LensA, Slot::A];

// In the order in which their files are named and loaded.
fn slots_of(command: Command) -> &'static [Slot]
    ensures { result.now ≡ slots_of command }
{
    match command {
        Command::Sync | Command::Plan => SIX.as_slice(),
        Command::Check => LENS.as_slice(),
        Command::View => LENS_AND_FILE.as_slice(),
        Command::Generate(_) => &[],
    }
}

// Puts each slot with its name behind files.
fn put_paired<'a>(
    files: &mut Vec<Named<'a>>,
    slots: &[Slot],
    names: &'a [Name],
) -> Result<(), Memory>
    ensures { OnOk result (map file_of files.new.items ≡ map file_of files.old.items ++ paired slots.now names.now) }
{
    let [slot, slots @ ..] = slots else {
        return Ok(());
    };
    let [name, names @ ..] = names else {
        return Ok(());
    };
    files.push(Named { slot: *slot, name })?;
    put_paired(files, slots, names)
}

/// The files of a request, each with its slot, in the order in which they are loaded.
pub fn named(alloc: Global, request: &Request) -> Result<Vec<Named<'_>>, Memory>
    ensures { IfOk result (λ files. map file_of files.items ≡ files_of (request_value request.now)) }
{
    let mut files = Vec::new(alloc);
    put_paired(&mut files, slots_of(request.command), &request.files)?;
    Ok(files)
}
