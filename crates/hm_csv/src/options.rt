//! The options: the column of the key, columns that show a text, and columns that show many.
ghost use Rattle.std.specs.Prelude.{◌≡◌, ◌∷◌, IfOk, map};
ghost use Rattle.hm_tree.specs.Sets.{ascending};
ghost use Rattle.hm_schema.specs.Values.{options_value};
ghost use Rattle.hm_format.specs.Options.{AreSound};
ghost use Rattle.hm_format.specs.Answers.{GivesSchema};
ghost use Rattle.hm_csv.specs.Options as spec;
ghost use Rattle.hm_csv.specs.Writing.{csv};

use hm_book_cards::book_schema;
use hm_format::{FormatFault, Key, first_bad_key, values_of};
use hm_schema::{Options, Schema, append_copies, copy_names};
use hm_tree::{Memory, Name, NameSet};
use std::alloc::Global;

// The keys: of one column there is the key of a record, and any number of columns may be shown.
const KEYS: [Key<'static>; 3] = [
    Key {
        name: "key",
        most: Some(1),
        required: true,
        declared: false,
    },
    Key {
        name: "show",
        most: None,
        required: false,
        declared: false,
    },
    Key {
        name: "many",
        most: None,
        required: false,
        declared: false,
    },
];

/// The schema of the address books of files under options, or the first key that is bad.
pub(crate) fn schema(alloc: Global, options: &Options) -> Result<Schema, FormatFault>
    requires { AreSound (options_value options.now) }
    ensures { GivesSchema (csv.schema_of (options_value options.now)) result }
{
    match first_bad_key(alloc, &KEYS, options)? {
        Some(key) => Err(FormatFault::BadOption { key }),
        None => Ok(book_schema(alloc, &shown_of(alloc, options)?)?),
    }
}

/// The names of the columns that are shown, which rise, each with whether its fields show many texts.
pub(crate) fn shown_of(alloc: Global, options: &Options) -> Result<Vec<(Name, bool)>, Memory>
    ensures { IfOk result (λ shown. shown.items ≡ spec.shown_of (options_value options.now)) }
{
    let many = NameSet::from_list(copy_names(alloc, values_of(&options.pairs, "many"))?)?;
    let names = shown_names(alloc, options)?;
    let mut shown = Vec::with_capacity(alloc, names.len())?;
    for name in names {
        let is_many = many.has(&name);
        shown.push((name, is_many))?;
    }
    Ok(shown)
}

// Their names.
fn shown_names(alloc: Global, options: &Options) -> Result<Vec<Name>, Memory>
    ensures { IfOk result (λ names. names.items ≡ spec.shown_names (options_value options.now)) }
{
    let mut names = copy_names(alloc, values_of(&options.pairs, "show"))?;
    append_copies(&mut names, values_of(&options.pairs, "many"))?;
    Ok(NameSet::from_list(names)?.into_names())
}

/// The names that a header has to have: that of the key's column, and those of the columns that are shown.
pub(crate) fn column_names(
    alloc: Global,
    options: &Options,
    shown: &[(Name, bool)],
) -> Result<Vec<Name>, Memory>
    requires { shown.now ≡ spec.shown_of (options_value options.now) }
    ensures { IfOk result (λ names. names.items ≡ spec.column_names (options_value options.now)) }
{
    let mut names = Vec::with_capacity(alloc, shown.len() + 1)?;
    names.push(key_name(alloc, options)?)?;
    for column in shown {
        names.push(column.0.copy()?)?;
    }
    Ok(names)
}

// The name of the key's column. Options that were judged have one; without it there is no column of that name.
fn key_name(alloc: Global, options: &Options) -> Result<Name, Memory>
    ensures { IfOk result (λ name. name ≡ spec.key_name (options_value options.now)) }
{
    match values_of(&options.pairs, "key").first() {
        Some(name) => name.copy(),
        None => Name::from_text(alloc, ""),
    }
}
