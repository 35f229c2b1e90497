//! Runs Harmony with the words of a command line over files in memory, and tells what became of the three files that a
//! run may write.
//!
//! Each file of the folder that a word names is taken into a store, and no file is written. What the run puts out is
//! printed, then a line with its status, and behind `sync` or `plan` and six names a line for each of the last three:
//! `NAME is absent`, `NAME stays` where it has the bytes from before, or `NAME becomes`, with the bytes that it has now
//! in the lines below. `tests/run-cases` runs it.
//!
//! In front of a run's words may stand `load N`, `replace N`, `replace-new N` and `put N`, by which its call of this kind and
//! number fails, a replace with the bytes from before or the new ones; and behind these `again`, by which the same is told
//! of the same run behind it.
//!
//! Proved: that what it calls is called as the contracts ask. Nothing is said of what it prints.
#![tactic(auto)]

mod faults;
mod files;
mod handed;

use crate::faults::{take_again, take_fault};
use crate::files::{load_named, tell_named};
use crate::handed::run_with_all;
use hm_outside::{FileStore, MemSink, MemStore, Put, Sink, StdSink, Store};
use hm_tree::{Memory, Name};
use std::alloc::Global;
use std::env;
use std::process::ExitCode;

// The words behind the program's name.
fn words_of(alloc: Global, rt: &HostRuntime) -> Result<Vec<Name>, Memory> {
    let mut words = Vec::new(alloc);
    let Ok(args) = env::args(rt) else {
        return Err(Memory);
    };
    for word in args.skip(1) {
        words.push(Name::from_text(alloc, word.as_str())?)?;
    }
    Ok(words)
}

// Whether a word is a command that writes files, or would.
fn writes(word: &Name) -> bool {
    matches!(word.text(), "sync" | "plan")
}

// The names of the files that a run of these words may write, or would: the last three behind such a command and its other
// files. Flags stand in front of it.
fn written(words: &[Name]) -> &[Name] {
    match words.iter().position(writes) {
        Some(place) if words.len() - place == 7 => &words[place + 4..],
        _ => &[],
    }
}

// What a run put out, and a line with its status.
fn told(alloc: Global, output: &[u8], status: u8) -> Result<Vec<u8>, Memory> {
    let line = format!(in alloc; "status {status}\n")?;
    let mut text = output.to_vec(alloc)?;
    text.extend_from_slice(line.as_bytes())?;
    Ok(text)
}

// The same of a run of these words over a store and a sink.
fn run_over(
    alloc: Global,
    words: &[Name],
    store: &mut MemStore,
    out: &mut MemSink,
) -> Result<Vec<u8>, Memory> {
    let status = run_with_all(alloc, words, store, out)?;
    told(alloc, out.bytes(), status)
}

// What is printed of a run of these words over the files of a folder, and of the same run behind it.
fn report<S: Store>(alloc: Global, words: &[Name], folder: &mut S) -> Result<Vec<u8>, Memory> {
    let mut store = MemStore::empty(alloc);
    let mut out = MemSink::empty(alloc);
    let held = load_named(folder, words, &mut store)?;
    let mut rest = words;
    for _ in words {
        if let Some(behind) = take_fault(rest, held, &mut store, &mut out)? {
            rest = behind;
        }
    }
    let again = take_again(rest);
    let words = again.unwrap_or(rest);
    let mut text = run_over(alloc, words, &mut store, &mut out)?;
    tell_named(&mut text, folder, written(words), &mut store)?;
    if again.is_some() {
        let mut out = MemSink::empty(alloc);
        text.extend_from_slice(&run_over(alloc, words, &mut store, &mut out)?)?;
        tell_named(&mut text, folder, written(words), &mut store)?;
    }
    Ok(text)
}

fn main(rt: HostRuntime) -> ExitCode {
    let alloc = rt.alloc();
    let Ok(words) = words_of(alloc, &rt) else {
        return ExitCode::from(5);
    };
    let mut folder = FileStore::new(alloc, &rt);
    let mut out = StdSink::new(alloc, rt.stdout());
    match report(alloc, &words, &mut folder) {
        Ok(text) => match out.put(&text) {
            Put::Done => ExitCode::from(0),
            _ => ExitCode::from(6),
        },
        Err(_) => ExitCode::from(5),
    }
}
