//! What a command line asks for.
ghost use Rattle.std.specs.Prelude.{◌≡◌, IfOk, codes, map};
ghost use Rattle.std.specs.Option.{option_map};
ghost use Rattle.clap.specs.Words.{all_of, app_of, first_of, found_of, rows_of};
ghost use Rattle.hm_changes_words.specs.Parse.{command as command_app};
ghost use Rattle.hm_changes_words.specs.Asked.{asked_in, asked_of, asked_value, files_said, most_said, names_value, number_of};

use clap::error::ErrorKind;
use clap::{Arg, ArgAction, ArgMatches, Command};
use hm_tree::{Memory, Name};
use std::alloc::{AllocError, Global};

/// What the words behind the program's name ask for.
#[derive(Drop)]
pub struct Asked {
    /// The number of `--most`, if it is there.
    pub most: Option<usize>,
    /// The names of the six files, in the order of the words.
    pub files: Vec<Name>,
}

// The command line as clap reads it: one option with a value, and words. The flags that clap adds by itself are off,
// and it has no subcommands, since these would bring `help` with them, and flags of their own.
fn command<'a>(alloc: Global) -> Result<Command<'a>, AllocError>
    ensures { IfOk result (λ c. app_of c ≡ command_app) }
{
    let most = Arg::new(alloc, "most").long("most").action(ArgAction::Set);
    let words = Arg::new(alloc, "words").action(ArgAction::Append);
    Command::new(alloc, "harmony-changes")
        .no_binary_name(true)
        .disable_help_flag(true)
        .arg(most)?
        .arg(words)
}

// The texts of the words.
fn texts_of<'a>(alloc: Global, words: &'a [Name]) -> Result<Vec<&'a str>, Memory>
    ensures { IfOk result (λ texts. map (λ text. text.now) texts.items ≡ words.now) }
{
    let mut texts = Vec::new(alloc);
    for word in words {
        texts.push(word.text())?;
    }
    Ok(texts)
}

// The names with these texts.
fn names_of(alloc: Global, texts: &[&str]) -> Result<Vec<Name>, Memory>
    ensures { IfOk result (λ names. names.items ≡ map (λ text. text.now) texts.now) }
{
    let mut names = Vec::new(alloc);
    for text in texts {
        names.push(Name::from_text(alloc, text)?)?;
    }
    Ok(names)
}

// The number that a word says, in decimal digits alone. Parsing alone would also take a `+` in front.
fn number_of(word: &str) -> Option<usize>
    ensures { result ≡ number_of word.now }
{
    if let [b'+', ..] = word.as_bytes() {
        return None;
    }
    match word.parse::<usize>() {
        Ok(number) => Some(number),
        Err(_) => None,
    }
}

// The number of `--most`, or none where it isn't there; nothing where its value is no number.
fn most_found(matches: &ArgMatches<'_>) -> Option<Option<usize>>
    ensures { result ≡ most_said (first_of (codes "most") (rows_of (found_of matches.now))) }
{
    match matches.get_str("most") {
        Some(word) => Some(Some(number_of(word)?)),
        None => Some(None),
    }
}

// The names of the files, if there are six.
fn files_found(alloc: Global, matches: &ArgMatches<'_>) -> Result<Option<Vec<Name>>, Memory>
    ensures { IfOk result (λ files. option_map names_value files ≡ files_said (all_of (codes "words") (rows_of (found_of matches.now)))) }
{
    match matches.get_strs("words") {
        Some(texts) if texts.len() == 6 => Ok(Some(names_of(alloc, texts)?)),
        _ => Ok(None),
    }
}

// What the matches ask for.
fn asked_found(alloc: Global, matches: &ArgMatches<'_>) -> Result<Option<Asked>, Memory>
    ensures { IfOk result (λ asked. option_map asked_value asked ≡ asked_in (rows_of (found_of matches.now))) }
{
    let Some(most) = most_found(matches) else {
        return Ok(None);
    };
    let Some(files) = files_found(alloc, matches)? else {
        return Ok(None);
    };
    Ok(Some(Asked { most, files }))
}

/// What the words behind the program's name ask for; nothing where they haven't the form. In front of the first `--`,
/// which only ends the options (POSIX.1-2017, XBD 12.2, guideline 10), `--most` stands once at the most, with a number
/// as the next word or behind `=`, and no other word begins with `-`, unless it is `-` alone (guideline 13). The other
/// words are six names, and are copied. The only error is want of memory.
pub fn read_asked(alloc: Global, words: &[Name]) -> Result<Option<Asked>, Memory>
    ensures { IfOk result (λ asked. option_map asked_value asked ≡ asked_of words.now) }
{
    let texts = texts_of(alloc, words)?;
    match command(alloc)?.try_get_matches_from(texts.as_slice()) {
        Ok(matches) => asked_found(alloc, &matches),
        Err(error) => match error.kind() {
            ErrorKind::OutOfMemory => Err(Memory),
            _ => Ok(None),
        },
    }
}
