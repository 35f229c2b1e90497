//! What files of a format are read as, and how they are written.
ghost use Rattle.hm_schema.specs.Values.{options_value};
ghost use Rattle.hm_format.specs.Options.{AreSound};
ghost use Rattle.hm_format.specs.Formats.{HasSchema, MayRead};

use crate::faults::{format_line, lens_line, text_line};
use crate::files::{load_at, load_if_there};
use crate::options::{count_options, read_options};
use crate::texts::schema_text;
use hm_csv::Csv;
use hm_format::{Format, FormatFault, Plain};
use hm_ical::ICalendar;
use hm_json_marks::Chrome;
use hm_netscape_marks::Netscape;
use hm_outside::Store;
use hm_schema::{Options, Schema};
use hm_tree::{Memory, Name, Tree};
use hm_tree_text::{read_tree, write_tree};
use hm_vcard::VCard;
use std::alloc::Global;

// What a format is asked: the schema of its trees, what a file is read as, or what is written of a tree behind a file.
#[derive(Clone, Copy)]
enum Question<'a> {
    Trees,
    Read(&'a [u8]),
    Write(&'a Tree, &'a [u8]),
}

/// What is said of options and files at a step; none where there is no such step or format.
pub fn format_answer<S: Store>(
    alloc: Global,
    store: &mut S,
    step: &str,
    format: &str,
    words: &[Name],
) -> Result<Option<Vec<u8>>, Memory> {
    let nodes = load_if_there(alloc, store, &Name::from_text(alloc, "nodes")?)?;
    let count = count_options(words);
    let files = &words[count..];
    let first = load_at(alloc, store, files, 0)?;
    let second = load_at(alloc, store, files, 1)?;
    match read_options(alloc, format, &words[..count], &nodes) {
        Ok(options) => step_answer(alloc, step, format, &options, &first, &second),
        Err(fault) => Ok(Some(lens_line(alloc, fault)?)),
    }
}

// The same of two files.
fn step_answer(
    alloc: Global,
    step: &str,
    format: &str,
    options: &Options,
    first: &[u8],
    second: &[u8],
) -> Result<Option<Vec<u8>>, Memory>
    requires { AreSound (options_value options.now) }
{
    match step {
        "trees" => by_name(alloc, format, options, &Question::Trees),
        "read" => by_name(alloc, format, options, &Question::Read(first)),
        "write" => match read_tree(alloc, first) {
            Ok(tree) => by_name(alloc, format, options, &Question::Write(&tree, second)),
            Err(fault) => Ok(Some(text_line(alloc, fault)?)),
        },
        _ => Ok(None),
    }
}

// What the format of this name answers.
fn by_name(
    alloc: Global,
    format: &str,
    options: &Options,
    question: &Question<'_>,
) -> Result<Option<Vec<u8>>, Memory>
    requires { AreSound (options_value options.now) }
{
    match format {
        "chrome" => Ok(Some(told(alloc, &Chrome::new(), options, question)?)),
        "netscape" => Ok(Some(told(alloc, &Netscape::new(), options, question)?)),
        "vcard" => Ok(Some(told(alloc, &VCard::new(), options, question)?)),
        "icalendar" => Ok(Some(told(alloc, &ICalendar::new(), options, question)?)),
        "csv" => Ok(Some(told(alloc, &Csv::new(), options, question)?)),
        "tree" => Ok(Some(told(alloc, &Plain::new(), options, question)?)),
        _ => Ok(None),
    }
}

// What a format answers, or why it refuses.
fn told<F: Format>(
    alloc: Global,
    format: &F,
    options: &Options,
    question: &Question<'_>,
) -> Result<Vec<u8>, Memory>
    requires { AreSound (options_value options.now) }
{
    match judged(alloc, format, options, question) {
        Ok(text) => Ok(text),
        Err(fault) => format_line(alloc, fault),
    }
}

// The same, where the options are those of the format.
fn judged<F: Format>(
    alloc: Global,
    format: &F,
    options: &Options,
    question: &Question<'_>,
) -> Result<Vec<u8>, FormatFault>
    requires { AreSound (options_value options.now) }
{
    let schema = format.schema(alloc, options)?;
    match question {
        Question::Trees => Ok(schema_text(alloc, &schema)?),
        Question::Read(bytes) => shown(alloc, format, options, bytes),
        Question::Write(tree, before) => written(alloc, format, options, &schema, tree, before),
    }
}

// The text of the tree that a file is read as.
fn shown<F: Format>(
    alloc: Global,
    format: &F,
    options: &Options,
    bytes: &[u8],
) -> Result<Vec<u8>, FormatFault>
    requires { MayRead (F.means format.now) (options_value options.now) }
{
    let tree = format.read(alloc, options, bytes)?;
    Ok(write_tree(alloc, &tree)?)
}

// The file of a tree, which has to be a member of the schema, behind one that has to be read.
fn written<F: Format>(
    alloc: Global,
    format: &F,
    options: &Options,
    schema: &Schema,
    tree: &Tree,
    before: &[u8],
) -> Result<Vec<u8>, FormatFault>
    requires sound { AreSound (options_value options.now) }
    requires schema { HasSchema (F.means format.now) (options_value options.now) schema.now }
{
    let _tag = format.tag();
    match schema.first_outside(alloc, tree)? {
        None => {
            format.read(alloc, options, before)?;
            format.write(alloc, options, tree, before)
        }
        Some(path) => Err(FormatFault::Outside { path }),
    }
}
