//! Reads a schema, an archive and two replicas, reconciles them and certifies the outcome, as far as the first word
//! says: `read`, `reconcile` or `certify`.
//!
//! Behind `certify` further words claim another outcome: a part that is changed, as `archive`, `left`, `right`,
//! `conflicts`, the `order` of these, the `reason` of the last one or the `path` that it tells; or, behind `stop`, that
//! both sides stay as they were, for the reason `earlier`, `lost NAME..` or `names NAME..`; or, behind `claimed`, that they
//! stay and the archive becomes what the file `claimed` holds, with no conflict, or one at the path of the names behind
//! `earlier NAME..` or `lost NAME..`, which is the path that it tells too. The status is 0 where all was done, and the
//! outcome is certified; 1 where it isn't, or a side is no member; 2 where the words have no meaning; and 5 where a file
//! isn't read. `tests/run-cases` and `bench/certify` run it.
//!
//! Proved: that what it measures is called as the contracts ask: for a schema without twins, and two members. Nothing
//! is said of what it answers.
#![tactic(auto)]

ghost use Rattle.std.specs.Prelude.{IfOk};
ghost use Rattle.hm_schema.specs.Membership.{HasNoTwins};

mod claims;

use crate::claims::{claim, claim_archive};
use hm_certify::certify;
use hm_outside::{FileStore, Loaded, Store};
use hm_reconcile::reconcile;
use hm_report::Outcome;
use hm_schema::Schema;
use hm_schema_text::read_schema;
use hm_tree::{Archive, Memory, Name, Tree};
use hm_tree_text::{read_archive, read_tree};
use std::alloc::Global;
use std::env;
use std::process::ExitCode;

// The status where all was done, and the outcome is certified.
const DONE: u8 = 0;

// Where a side is no member, or the outcome isn't certified.
const REFUSED: u8 = 1;

// Where the words have no meaning.
const USAGE: u8 = 2;

// Where a file isn't read, or memory ran out.
const FAULT: u8 = 5;

#[derive(Drop)]
struct Values {
    schema: Schema,
    archive: Archive,
    left: Tree,
    right: Tree,
}

fn load<S: Store>(alloc: Global, store: &mut S, name: &str) -> Result<Vec<u8>, Memory> {
    match store.load(&Name::from_text(alloc, name)?, 16_777_216) {
        Loaded::Bytes(bytes) => Ok(bytes),
        _ => Err(Memory),
    }
}

fn read<S: Store>(alloc: Global, store: &mut S) -> Result<Values, Memory>
    ensures { IfOk result (λ values. HasNoTwins values.schema) }
{
    let schema = load(alloc, store, "schema")?;
    let archive = load(alloc, store, "archive")?;
    let left = load(alloc, store, "A")?;
    let right = load(alloc, store, "B")?;
    let Ok(schema) = read_schema(alloc, &schema) else {
        return Err(Memory);
    };
    let Ok(archive) = read_archive(alloc, &archive) else {
        return Err(Memory);
    };
    let Ok(left) = read_tree(alloc, &left) else {
        return Err(Memory);
    };
    let Ok(right) = read_tree(alloc, &right) else {
        return Err(Memory);
    };
    Ok(Values {
        schema,
        archive,
        left,
        right,
    })
}

// The archive that the file `claimed` holds.
fn claimed_archive<S: Store>(alloc: Global, store: &mut S) -> Result<Archive, Memory> {
    let bytes = load(alloc, store, "claimed")?;
    match read_archive(alloc, &bytes) {
        Ok(archive) => Ok(archive),
        Err(_) => Err(Memory),
    }
}

// Makes of an outcome the one that words claim, and tells whether they have a meaning.
fn alter<S: Store>(
    alloc: Global,
    store: &mut S,
    values: &Values,
    outcome: &mut Outcome,
    words: &[Name],
) -> Result<bool, Memory> {
    match words.split_first() {
        Some((word, rest)) if word.text() == "claimed" => {
            let archive = claimed_archive(alloc, store)?;
            claim_archive(alloc, outcome, &values.left, &values.right, archive, rest)
        }
        _ => claim(alloc, outcome, &values.left, &values.right, words),
    }
}

// Goes on as far as a step, and answers a status. Behind `certify` there are the words of a claim.
fn go_on<S: Store>(alloc: Global, store: &mut S, step: &str, words: &[Name]) -> Result<u8, Memory> {
    let values = read(alloc, store)?;
    if !values.schema.member(&values.left) {
        return Ok(REFUSED);
    }
    if !values.schema.member(&values.right) {
        return Ok(REFUSED);
    }
    if step == "read" {
        return Ok(DONE);
    }
    let mut outcome = reconcile(
        alloc,
        &values.schema,
        &values.archive,
        &values.left,
        &values.right,
    )?;
    if step == "reconcile" {
        return Ok(DONE);
    }
    if !alter(alloc, store, &values, &mut outcome, words)? {
        return Ok(USAGE);
    }
    if certify(
        &values.schema,
        &values.archive,
        &values.left,
        &values.right,
        &outcome,
    ) {
        Ok(DONE)
    } else {
        Ok(REFUSED)
    }
}

// The words behind the program's name.
fn words_of(alloc: Global, rt: &HostRuntime) -> Result<Vec<Name>, Memory> {
    let mut words = Vec::new(alloc);
    let Ok(args) = env::args(rt) else {
        return Err(Memory);
    };
    for word in args.skip(1) {
        words.push(Name::from_text(alloc, word.as_str())?)?;
    }
    Ok(words)
}

// The status of the words.
fn status_of(alloc: Global, rt: &HostRuntime) -> Result<u8, Memory> {
    let words = words_of(alloc, rt)?;
    let Some((step, rest)) = words.split_first() else {
        return Ok(USAGE);
    };
    if !matches!(step.text(), "read" | "reconcile" | "certify") {
        return Ok(USAGE);
    }
    go_on(alloc, &mut FileStore::new(alloc, rt), step.text(), rest)
}

fn main(rt: HostRuntime) -> ExitCode {
    ExitCode::from(status_of(rt.alloc(), &rt).unwrap_or(FAULT))
}
