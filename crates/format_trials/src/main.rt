//! Says what texts and files are read as, and how they are written again.
//!
//! ```text
//! tree FILE                                   a tree
//! archive FILE                                an archive, and what it is at its root
//! schema FILE                                 a schema, whose nodes are numbered
//! nodes FILE                                  the nodes that these lines of a lens file declare
//! trees FORMAT KEY=VALUE..                    the schema of a format's trees
//! read FORMAT KEY=VALUE.. FILE                the tree of a file
//! write FORMAT KEY=VALUE.. TREE [BEFORE]      the file of a tree, behind the file from before; none is an empty one
//! ```
//!
//! A format and its options are as a lens file has them, which declares the nodes of the file `nodes`, if that is
//! there. What isn't read or written is told by its fault. `tests/run-cases` runs it.
//!
//! Proved: that what it calls is called as the contracts ask. Nothing is said of what it prints.
#![tactic(auto)]

mod faults;
mod files;
mod formats;
mod options;
mod texts;

use crate::files::load;
use crate::formats::format_answer;
use crate::texts::text_answer;
use hm_outside::{FileStore, Put, Sink, StdSink, Store};
use hm_tree::{Memory, Name};
use std::alloc::Global;
use std::env;
use std::process::ExitCode;

// The words behind the program's name.
fn words_of(alloc: Global, rt: &HostRuntime) -> Result<Vec<Name>, Memory> {
    let mut words = Vec::new(alloc);
    let Ok(args) = env::args(rt) else {
        return Err(Memory);
    };
    for word in args.skip(1) {
        words.push(Name::from_text(alloc, word.as_str())?)?;
    }
    Ok(words)
}

// What is said at a step of the words behind it; none where the step or its words are others.
fn answer<S: Store>(
    alloc: Global,
    store: &mut S,
    words: &[Name],
) -> Result<Option<Vec<u8>>, Memory> {
    let [step, first, rest @ ..] = words else {
        return Ok(None);
    };
    match step.text() {
        "trees" | "read" | "write" => {
            format_answer(alloc, store, step.text(), first.text(), rest)
        }
        other => text_answer(alloc, other, &load(store, first)?),
    }
}

fn status_of(alloc: Global, rt: &HostRuntime) -> Result<u8, Memory> {
    let words = words_of(alloc, rt)?;
    let mut store = FileStore::new(alloc, rt);
    let mut out = StdSink::new(alloc, rt.stdout());
    match answer(alloc, &mut store, &words)? {
        Some(text) => match out.put(&text) {
            Put::Done => Ok(0),
            _ => Ok(6),
        },
        None => Ok(2),
    }
}

fn main(rt: HostRuntime) -> ExitCode {
    let alloc = rt.alloc();
    ExitCode::from(status_of(alloc, &rt).unwrap_or(5))
}
