//! Reading a file as an address book.
ghost use Rattle.std.specs.Prelude.{◌≡◌, All, IfOk, IfErr, T, map};
ghost use Rattle.csv.specs.Records.{fields_of};
ghost use Rattle.hm_tree.specs.Nodes.{are_edges};
ghost use Rattle.hm_schema.specs.Values.{options_value};
ghost use Rattle.hm_csv_columns.specs.Records.{shown_by};
ghost use Rattle.hm_format.specs.Formats.{MayRead};
ghost use Rattle.hm_format.specs.Answers.{Reads};
ghost use Rattle.hm_csv.specs.Files.{CsvReads};
ghost use Rattle.hm_csv.specs.Reading.{Suits, IsItem, item_by, IsKeyed, IsKeyFault, GivesTree};
ghost use Rattle.hm_csv.specs.Writing.{csv};

use crate::opening::open;
use csv::ByteRecord;
use hm_book_items::{ItemTreeFault, item_tree};
use hm_csv_columns::{Column, card_of};
use hm_csv_records::field;
use hm_format::FormatFault;
use hm_schema::Options;
use hm_tree::{DEEPEST, Memory, Name, Tree};
use std::alloc::Global;

/// The address book of a file, or why it has none.
pub fn read_book(alloc: Global, options: &Options, bytes: &[u8]) -> Result<Tree, FormatFault>
    requires { MayRead csv (options_value options.now) }
    ensures { Reads (CsvReads (options_value options.now) bytes.now) result }
{
    let opened = open(alloc, options, bytes)?;
    let items = items(alloc, opened.key, &opened.table.columns, opened.others())?;
    tree_of(alloc, items)
}

// The records behind the header as items, in their order, if each has a key.
fn items(
    alloc: Global,
    key: usize,
    columns: &[Column],
    rows: &[ByteRecord],
) -> Result<Vec<(Name, Tree)>, FormatFault>
    requires names { T (are_edges (shown_by columns.now)) }
    requires rows { All (λ row. Suits columns.now key (fields_of row)) rows.now }
    ensures items { IfOk result (λ items. items.items ≡ map (item_by key columns.now) (map fields_of rows.now)) }
    ensures keyed { IfOk result (λ items. All (IsKeyed key) (map fields_of rows.now)) }
    ensures keyless { IfErr result (IsKeyFault key (map fields_of rows.now)) }
{
    let mut items = Vec::with_capacity(alloc, rows.len())?;
    for place in 0..rows.len() {
        match item(alloc, key, columns, &rows[place])? {
            Some(item) => items.push(item)?,
            None => return Err(FormatFault::NoKey { number: place + 2 }),
        }
    }
    Ok(items)
}

// A record as an item, if it has a key.
fn item(
    alloc: Global,
    key: usize,
    columns: &[Column],
    row: &ByteRecord,
) -> Result<Option<(Name, Tree)>, Memory>
    requires names { T (are_edges (shown_by columns.now)) }
    requires row { Suits columns.now key (fields_of row.now) }
    ensures { IfOk result (IsItem key columns.now (fields_of row.now)) }
{
    let name = Name::cleaned_bytes(alloc, field(row, key))?;
    if !name.is_text() {
        return Ok(None);
    }
    Ok(Some((name, card_of(alloc, columns, row)?)))
}

// The tree of items, if it isn't too deep.
fn tree_of(alloc: Global, items: Vec<(Name, Tree)>) -> Result<Tree, FormatFault>
    ensures { GivesTree items.items result }
{
    match item_tree(alloc, items, DEEPEST) {
        Ok(tree) => Ok(tree),
        Err(ItemTreeFault::TooDeep { depth }) => Err(FormatFault::TooDeep { depth }),
        Err(ItemTreeFault::Memory) => Err(FormatFault::Memory),
    }
}
