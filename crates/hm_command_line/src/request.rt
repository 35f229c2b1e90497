//! What a command line asks for.
ghost use Rattle.std.specs.Prelude.{◌≡◌, IfOk};
ghost use Rattle.std.specs.Option.{option_map};
ghost use Rattle.hm_command_line.specs.Requests.{number_of, command_of, asked_in, asked_value, request_of, request_value};

use crate::line::{Line, read_line};
use hm_tree::{Memory, Name};
use std::alloc::Global;

/// The greatest number of contacts that may be asked for.
pub const MOST_CONTACTS: usize = 50_000;

/// What is to be done, by the first word of a request.
#[derive(Clone, Copy, Debug, PartialEq, Eq)]
pub enum Command {
    /// `sync`: reconciles two replicas, and writes what comes of it. It has six files: schema, lens file A, lens file
    /// B, archive, replica A and replica B.
    Sync,
    /// `plan`: the same with the same files, but writes none.
    Plan,
    /// `check`: puts out the schema of what a lens file shows. It has one file, the lens file.
    Check,
    /// `view`: puts out what a lens file shows of a replica. It has two files, the lens file and the replica.
    View,
    /// `gen`: reconciles two address books of so many contacts, from 1 to 50,000, that are made up. It has no files.
    Generate(usize),
}

/// What the words ask for.
#[derive(Drop)]
pub struct Request {
    /// Whether `--quiet` is one of the flags.
    pub quiet: bool,
    pub command: Command,
    /// The names of the command's files, in the order of the words; there are as many as it has.
    pub files: Vec<Name>,
}

// The number of contacts that a word says: decimal digits, of which the first isn't 0. Parsing alone would also take a
// `+`, and a 0 in front.
fn number_of(word: &Name) -> Option<usize>
    ensures { result ≡ number_of word.now }
{
    match word.bytes() {
        [b'1'..=b'9', ..] => {}
        _ => return None,
    }
    match word.text().parse::<usize>() {
        Ok(number) if number <= MOST_CONTACTS => Some(number),
        _ => None,
    }
}

// The command of this name, if so many words stand behind it as it has.
fn command_of(word: &Name, files: &[Name]) -> Option<Command>
    ensures { result ≡ command_of word.now files.now }
{
    match (word.text(), files) {
        ("sync", [_, _, _, _, _, _]) => Some(Command::Sync),
        ("plan", [_, _, _, _, _, _]) => Some(Command::Plan),
        ("check", [_]) => Some(Command::Check),
        ("view", [_, _]) => Some(Command::View),
        ("gen", [number]) => Some(Command::Generate(number_of(number)?)),
        _ => None,
    }
}

// The command and the names of its files, by the words of a command line; a number names no file.
fn asked_in(alloc: Global, mut words: Vec<Name>) -> Option<(Command, Vec<Name>)>
    ensures { option_map asked_value result ≡ asked_in words.items }
{
    if words.is_empty() {
        return None;
    }
    let word = words.remove(0);
    let command = command_of(&word, &words)?;
    match command {
        Command::Generate(_) => Some((command, Vec::new(alloc))),
        _ => Some((command, words)),
    }
}

/// What the words behind the program's name ask for, by the table of commands; nothing where they ask for none of it.
/// The names of the files are copied from the words. The only error is want of memory.
pub fn read_request(alloc: Global, words: &[Name]) -> Result<Option<Request>, Memory>
    ensures { IfOk result (λ request. option_map request_value request ≡ request_of words.now) }
{
    let Some(line) = read_line(alloc, words)? else {
        return Ok(None);
    };
    let Line { quiet, words } = line;
    match asked_in(alloc, words) {
        Some((command, files)) => Ok(Some(Request {
            quiet,
            command,
            files,
        })),
        None => Ok(None),
    }
}
