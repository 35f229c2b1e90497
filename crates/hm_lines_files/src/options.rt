//! The options: the properties that are shown.
ghost use Rattle.std.specs.Prelude.{◌≡◌, IfOk, T, map};
ghost use Rattle.hm_tree.specs.Nodes.{are_edges};
ghost use Rattle.hm_schema.specs.Values.{options_value, pair_value};
ghost use Rattle.hm_book_cards.specs.Books.{book_schema};
ghost use Rattle.hm_format.specs.Options.{AreSound, accepted, bad_key};
ghost use Rattle.hm_format.specs.Answers.{GivesSchema};
ghost use Rattle.hm_lines_files.specs.Forms as spec;
ghost use Rattle.hm_lines_files.specs.Writing.{meaning_of};

use crate::grammar::Grammar;
use hm_book_cards::book_schema;
use hm_format::{FormatFault, Key, first_bad_key, values_of};
use hm_schema::{Options, Schema, copy_names};
use hm_tree::{Memory, Name, NameSet};
use std::alloc::Global;

// Any number of properties may be shown; as names of nodes are elsewhere, they are judged by a list of those that may.
const KEYS: [Key<'static>; 1] = [Key {
    name: "show",
    most: None,
    required: false,
    declared: true,
}];

/// The schema of the address books of files of a form under options, or the first key that is bad.
pub fn schema_of<G: Grammar>(
    alloc: Global,
    grammar: &G,
    options: &Options,
) -> Result<Schema, FormatFault>
    requires { AreSound (options_value options.now) }
    ensures { GivesSchema ((meaning_of (G.form grammar.now)).schema_of (options_value options.now)) result }
{
    let _tag = grammar.tag();
    schema(alloc, &grammar.properties(alloc)?, options)
}

/// The schema of the address books of files under options, of which some properties may be shown, or the first key that is bad.
/// The names of the properties rise, and each stands with whether a component may show many texts of it.
pub fn schema(
    alloc: Global,
    properties: &[(Name, bool)],
    options: &Options,
) -> Result<Schema, FormatFault>
    requires sound { AreSound (options_value options.now) }
    requires names { T (are_edges properties.now) }
    ensures { GivesSchema (accepted (bad_key spec.show_rules (spec.judged properties.now (options_value options.now))) (book_schema (spec.shown_by properties.now (options_value options.now)))) result }
{
    match first_bad_key(alloc, &KEYS, &judged(alloc, properties, options)?)? {
        Some(key) => Err(FormatFault::BadOption { key }),
        None => Ok(book_schema(alloc, &shown_by(alloc, properties, options)?)?),
    }
}

// The options with the properties that may be shown as the names that values have to be of.
fn judged(alloc: Global, properties: &[(Name, bool)], options: &Options) -> Result<Options, Memory>
    ensures { IfOk result (λ judged. options_value judged ≡ spec.judged properties.now (options_value options.now)) }
{
    Ok(Options {
        pairs: copy_of(alloc, &options.pairs)?,
        type_names: names_of(alloc, properties)?,
        types: Vec::new(alloc),
    })
}

// Equal keys with equal values.
fn copy_of(alloc: Global, pairs: &[(Name, Vec<Name>)]) -> Result<Vec<(Name, Vec<Name>)>, Memory>
    ensures { IfOk result (λ copies. map pair_value copies.items ≡ map pair_value pairs.now) }
{
    let mut copies = Vec::with_capacity(alloc, pairs.len())?;
    for pair in pairs {
        copies.push((pair.0.copy()?, copy_names(alloc, &pair.1)?))?;
    }
    Ok(copies)
}

// The names of properties.
fn names_of(alloc: Global, properties: &[(Name, bool)]) -> Result<Vec<Name>, Memory>
    ensures { IfOk result (λ names. names.items ≡ map (λ p. p.0) properties.now) }
{
    let mut names = Vec::with_capacity(alloc, properties.len())?;
    for property in properties {
        names.push(property.0.copy()?)?;
    }
    Ok(names)
}

/// The properties that options show, of those that may be shown.
pub fn shown_by(
    alloc: Global,
    properties: &[(Name, bool)],
    options: &Options,
) -> Result<Vec<(Name, bool)>, Memory>
    ensures { IfOk result (λ shown. shown.items ≡ spec.shown_by properties.now (options_value options.now)) }
{
    let values = NameSet::from_list(copy_names(alloc, values_of(&options.pairs, "show"))?)?;
    let mut shown = Vec::new(alloc);
    for property in properties {
        if values.has(&property.0) {
            shown.push((property.0.copy()?, property.1))?;
        }
    }
    Ok(shown)
}
