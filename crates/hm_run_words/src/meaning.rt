//! What the words of a run mean.
ghost use Rattle.std.specs.Prelude.{◌≡◌, Some, IfOk, length};
ghost use Rattle.hm_command_line.specs.Requests.{request_value};
ghost use Rattle.hm_run_words.specs.Slots.{slots_of, files_of};
ghost use Rattle.hm_run_words.specs.Words.{names_differ, same_pair, slot_pair, checked, meaning, AnswersOrStops};

use crate::pairs::first_pair;
use crate::slots::named;
use hm_command_line::{Command, Request, read_request};
use hm_run_files::{Refusal, Slot, Stop};
use hm_tree::{Memory, Name};
use std::alloc::Global;

// Whether two files of a command may not have one name.
fn names_differ(command: Command) -> bool
    ensures { result ≡ names_differ command }
{
    matches!(command, Command::Sync | Command::Plan)
}

// The first two slots of a request with one name, where that may not be.
fn first_clash(alloc: Global, request: &Request) -> Result<Option<(Slot, Slot)>, Memory>
    ensures { IfOk result (λ found. found ≡ slot_pair (same_pair (names_differ request.now.command) (files_of (request_value request.now)))) }
{
    if !names_differ(request.command) {
        return Ok(None);
    }
    let files = named(alloc, request)?;
    Ok(first_pair(&files))
}

/// The request, if its files may have their names; else the first two slots of one name where that may not be: a file that is
/// written, or would be, the archive or a replica, has the name of no other.
pub fn with_names_apart(alloc: Global, request: Request) -> Result<Request, Stop>
    ensures { AnswersOrStops request_value (checked (Some (request_value request))) result }
{
    match first_clash(alloc, &request)? {
        Some((one, two)) => Err(Stop::Refused(Refusal::SameName(one, two))),
        None => Ok(request),
    }
}

/// What the words mean: a request whose files may have their names (`with_names_apart`). The usage line is told where they have
/// no meaning.
pub fn meaning_of(alloc: Global, words: &[Name]) -> Result<Request, Stop>
    ensures means { AnswersOrStops request_value (meaning words.now) result }
    ensures files { IfOk result (λ request. length request.files.items ≡ length (slots_of request.command)) }
{
    match read_request(alloc, words)? {
        Some(request) => with_names_apart(alloc, request),
        None => Err(Stop::Refused(Refusal::Usage)),
    }
}
