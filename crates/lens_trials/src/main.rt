//! Reads lens files, checks them over schemas, and runs their main lenses on trees. All of these are files that the
//! words name. The first word says what is asked:
//!
//!     copies LENS                     the lens file, written anew
//!     read SCHEMA LENS                whether both are read
//!     check SCHEMA LENS               whether the program is typed over the schema
//!     view SCHEMA LENS                the schema of its views
//!     shows SCHEMA LENS TREE..        what is shown of each tree
//!     puts SCHEMA LENS VIEW [TREE]    what is put of a view, with that tree from before or with none
//!     edits SCHEMA LENS TREE VIEW     what is shown of a tree, what is put back of that, and what is put of a view
//!                                     with the tree from before and with none
//!     trees SCHEMA LENS TREE..        how many of the trees are members of the schema
//!     get SCHEMA LENS TREE..          the same, and each of these is shown
//!     put SCHEMA LENS TREE..          the same, and what is shown of each is put back
//!     laws SCHEMA LENS TREE..         the same, and all laws are tried with them
//!
//! The last four say in a line that the program is typed, and in a second one how far its lens was run on how many
//! trees, or that it handled them unlawfully. In place of any of this a line says which file is bad, or what is wrong
//! with the program. `tests/run-cases`, `tests/random-lenses`, `bench/lenses` and `bench/types` run it.
//!
//! Proved: that a typed lens keeps the laws on the trees on which it is tried, which are members of the schema:
//! `are_lawful` answers true. Nothing is said of the lines that it prints.
#![tactic(auto)]

mod copies;
mod lines;
mod members;
mod programs;
mod runs;
mod trials;

use crate::copies::copy_lines;
use crate::members::load;
use crate::programs::try_files;
use hm_outside::{FileStore, Put, Sink, StdSink, Store};
use hm_tree::{Memory, Name};
use std::alloc::Global;
use std::env;
use std::process::ExitCode;

// The words behind the program's name.
fn words_of(alloc: Global, rt: &HostRuntime) -> Result<Vec<Name>, Memory> {
    let mut words = Vec::new(alloc);
    let Ok(args) = env::args(rt) else {
        return Err(Memory);
    };
    for word in args.skip(1) {
        words.push(Name::from_text(alloc, word.as_str())?)?;
    }
    Ok(words)
}

// What is said of a lens file alone.
fn try_copy<S: Store>(alloc: Global, store: &mut S, lens: &Name) -> Result<Vec<u8>, Memory> {
    let bytes = load(store, lens)?;
    copy_lines(alloc, &bytes)
}

// What the words ask for, where they ask for anything.
fn answer<S: Store>(
    alloc: Global,
    store: &mut S,
    words: &[Name],
) -> Result<Option<Vec<u8>>, Memory> {
    match words {
        [word, lens] if word.text() == "copies" => Ok(Some(try_copy(alloc, store, lens)?)),
        [step, schema, lens, trees @ ..] => {
            let said = try_files(alloc, store, step.text(), schema, lens, trees)?;
            Ok(Some(said))
        }
        _ => Ok(None),
    }
}

fn main(rt: HostRuntime) -> ExitCode {
    let alloc = rt.alloc();
    let Ok(words) = words_of(alloc, &rt) else {
        return ExitCode::from(5);
    };
    let mut out = StdSink::new(alloc, rt.stdout());
    let mut store = FileStore::new(alloc, &rt);
    match answer(alloc, &mut store, &words) {
        Ok(Some(text)) => match out.put(&text) {
            Put::Done => ExitCode::from(0),
            _ => ExitCode::from(6),
        },
        Ok(None) => ExitCode::from(2),
        Err(_) => ExitCode::from(5),
    }
}
