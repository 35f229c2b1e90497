//! The steps of a run, for every command.
ghost use Rattle.std.specs.Prelude.{◌≡◌, length};
ghost use Rattle.hm_command_line.specs.Requests.{request_value};
ghost use Rattle.hm_run_effects.specs.Effects.{Acts};
ghost use Rattle.hm_run_handed.specs.Handed.{handed_in};
ghost use Rattle.hm_run_words.specs.Slots.{slots_of, files_of};
ghost use Rattle.hm_run_words.specs.Words.{meaning as word_meaning};
ghost use Rattle.hm_run.specs.Commands.{finding_of};
ghost use Rattle.hm_run.specs.Endings.{Works};

use crate::commands::effect_of;
use hm_command_line::Request;
use hm_outside::Store;
use hm_run_files::{Stop, load_all, write_all};
use hm_run_handed::HandedIn;
use hm_run_words::{Output, meaning_of, named};
use hm_tree::Name;
use std::alloc::Global;

// Loads the files of a request, finds what they come to, writes what is to be written, and gives what is to be put out.
fn act<S: Store>(
    alloc: Global,
    request: &Request,
    store: &mut S,
    given: HandedIn<'_>,
) -> Result<Output, Stop>
    requires { length request.now.files.items ≡ length (slots_of request.now.command) }
    ensures { Acts (finding_of (handed_in given.entry means meaning) (request_value request.now)) (files_of (request_value request.now)) (S.contents store.old) (S.contents store.new) (S.failed store.old) (S.failed store.new) result }
{
    let files = named(alloc, request)?;
    let loads = load_all(alloc, store, &files)?;
    let effect = effect_of(alloc, request, given, loads)?;
    write_all(store, &effect.news)?;
    Ok(effect.output)
}

/// Carries out what the words mean.
pub fn carry_out<S: Store>(
    alloc: Global,
    words: &[Name],
    store: &mut S,
    given: HandedIn<'_>,
) -> Result<Output, Stop>
    ensures { Works (handed_in given.entry means meaning) (word_meaning words.now) (S.contents store.old) (S.contents store.new) (S.failed store.old) (S.failed store.new) result }
{
    let request = meaning_of(alloc, words)?;
    act(alloc, &request, store, given)
}
