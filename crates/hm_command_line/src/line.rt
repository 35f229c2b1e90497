//! A command line, read from words.
ghost use Rattle.std.specs.Prelude.{◌≡◌, IfOk, map};
ghost use Rattle.std.specs.Option.{option_map};
ghost use Rattle.clap.specs.Words.{app_of, found_of, rows_of};
ghost use Rattle.hm_command_line.specs.Words.{LineValue, line_of, line_value};
ghost use Rattle.hm_command_line.specs.Parse.{AreUtf8, Says, command as command_app};

use clap::error::ErrorKind;
use clap::{Arg, ArgAction, ArgMatches, Command};
use hm_tree::{Memory, Name};
use std::alloc::{AllocError, Global};

/// What the words behind the program's name say.
#[derive(Drop)]
pub struct Line {
    /// Whether `--quiet` is one of the flags.
    pub quiet: bool,
    /// The words that are no flags, in their order, without the first `--`.
    pub words: Vec<Name>,
}

// The command line as clap reads it: one flag, and words. The flags that clap adds by itself are off, and it has no
// subcommands, since these would bring `help` with them, and flags of their own.
fn command<'a>(alloc: Global) -> Result<Command<'a>, AllocError>
    ensures { IfOk result (λ c. app_of c ≡ command_app) }
{
    let quiet = Arg::new(alloc, "quiet")
        .long("quiet")
        .action(ArgAction::SetTrue);
    let words = Arg::new(alloc, "words").action(ArgAction::Append);
    Command::new(alloc, "harmony")
        .no_binary_name(true)
        .disable_help_flag(true)
        .arg(quiet)?
        .arg(words)
}

// The texts of the words.
fn texts_of<'a>(alloc: Global, words: &'a [Name]) -> Result<Vec<&'a str>, Memory>
    ensures values { IfOk result (λ texts. map (λ text. text.now) texts.items ≡ words.now) }
    ensures utf8 { IfOk result (λ texts. AreUtf8 words.now) }
{
    let mut texts = Vec::new(alloc);
    for word in words {
        texts.push(word.text())?;
    }
    Ok(texts)
}

// The names with these texts.
fn names_of(alloc: Global, texts: &[&str]) -> Result<Vec<Name>, Memory>
    ensures { IfOk result (λ names. names.items ≡ map (λ text. text.now) texts.now) }
{
    let mut names = Vec::new(alloc);
    for text in texts {
        names.push(Name::from_text(alloc, text)?)?;
    }
    Ok(names)
}

// What the matches say.
fn line_found(alloc: Global, matches: &ArgMatches<'_>) -> Result<Line, Memory>
    ensures { IfOk result (λ line. (said : LineValue) → Says said (rows_of (found_of matches.now)) → line_value line ≡ said) }
{
    let words = match matches.get_strs("words") {
        Some(texts) => names_of(alloc, texts)?,
        None => Vec::new(alloc),
    };
    Ok(Line {
        quiet: matches.get_flag("quiet"),
        words,
    })
}

/// What the words say; nothing where they haven't the form of a command line. In front of the first `--`, which only
/// ends the flags (POSIX.1-2017, XBD 12.2, guideline 10), `--quiet` stands once at the most, and no other word begins
/// with `-`, unless it is `-` alone (guideline 13). The words are copied. The only error is want of memory.
pub fn read_line(alloc: Global, words: &[Name]) -> Result<Option<Line>, Memory>
    ensures { IfOk result (λ line. option_map line_value line ≡ line_of words.now) }
{
    let texts = texts_of(alloc, words)?;
    match command(alloc)?.try_get_matches_from(texts.as_slice()) {
        Ok(matches) => Ok(Some(line_found(alloc, &matches)?)),
        Err(error) => match error.kind() {
            ErrorKind::OutOfMemory => Err(Memory),
            _ => Ok(None),
        },
    }
}
