//! Writing a tree behind a file from before.
ghost use Rattle.std.specs.Prelude.{◌≡◌, ◌<◌, ◌∷◌, ◌&&◌, ◌↔◌, [], T, All, IsUtf8, IsTrue, IfOk, MatchOption, false, None, Some, length, map, drop, get_or, slice_get};
ghost use Rattle.std.specs.FinMap.{is_sorted};
ghost use Rattle.csv.specs.Records.{fields_of};
ghost use Rattle.hm_tree.specs.Names.{name_cmp};
ghost use Rattle.hm_schema.specs.Values.{options_value};
ghost use Rattle.hm_book_items.specs.LentKeys.{lent_counts};
ghost use Rattle.hm_book_items.specs.Lent.{lent_lists};
ghost use Rattle.hm_csv_records.specs.Written.{written};
ghost use Rattle.hm_csv_columns.specs.Records.{rewritten};
ghost use Rattle.hm_format.specs.Formats.{MayWrite, depth_over};
ghost use Rattle.hm_format.specs.Answers.{Writes};
ghost use Rattle.hm_csv.specs.Writing.{csv, CsvWrites};
ghost use Rattle.hm_csv.specs.Rewriting as spec;

use crate::opening::{Opened, open};
use csv::ByteRecord;
use hm_book_items::{NewItem, item_lists, plan};
use hm_csv_columns::{blank, rewrite};
use hm_csv_records::{RecordsWriter, field};
use hm_format::FormatFault;
use hm_schema::Options;
use hm_tree::{DEEPEST, Memory, Name, Tree};
use std::alloc::Global;

/// The bytes of a tree behind those from before, which stay where they are read as the tree.
pub fn write_book(
    alloc: Global,
    options: &Options,
    tree: &Tree,
    before: &[u8],
) -> Result<Vec<u8>, FormatFault>
    requires { MayWrite csv (options_value options.now) tree.now before.now }
    ensures { Writes (depth_over tree.now) (CsvWrites (options_value options.now) tree.now before.now) result }
{
    let depth = tree.depth();
    if depth > DEEPEST {
        return Err(FormatFault::TooDeep { depth });
    }
    let opened = open(alloc, options, before)?;
    let lists = item_lists(alloc, tree)?;
    match written_anew(alloc, &opened, &lists)? {
        Some(text) => Ok(text),
        None => Ok(copy_of(alloc, before)?),
    }
}

// The text of the records that are to show lists of cards; none where they are those from before.
fn written_anew<'a>(
    alloc: Global,
    opened: &Opened,
    lists: &[(&'a Name, Vec<&'a Tree>)],
) -> Result<Option<Vec<u8>>, Memory>
    requires even { spec.IsEven opened.now }
    requires rise { T (is_sorted name_cmp (lent_lists lists.now)) }
    ensures { IfOk result (spec.IsAnew opened.now (lent_lists lists.now)) }
{
    let keys = keys_of(alloc, &opened.rows, opened.key)?;
    let counts = counts_of(alloc, lists)?;
    let slots = plan(alloc, &keys, &counts)?;
    let (text, same) = rewrite_all(alloc, opened, lists, &slots)?;
    Ok(unless(same, text))
}

// The text, unless the records are those from before.
fn unless(same: bool, text: Vec<u8>) -> Option<Vec<u8>>
    ensures { MatchOption result (IsTrue same) (λ new. (same ≡ false) × (new.items ≡ text.items)) }
{
    if same { None } else { Some(text) }
}

// The keys of all records but the header.
fn keys_of(alloc: Global, rows: &[ByteRecord], key: usize) -> Result<Vec<Name>, Memory>
    requires key { All (λ row. key < length (fields_of row)) rows.now }
    requires text { All (λ row. All IsUtf8 (fields_of row)) rows.now }
    ensures { IfOk result (λ keys. keys.items ≡ map (spec.key_in key) (drop 1 (map fields_of rows.now))) }
{
    let mut keys = Vec::new(alloc);
    for at in 1..rows.len() {
        keys.push(Name::cleaned_bytes(alloc, field(&rows[at], key))?)?;
    }
    Ok(keys)
}

// How many cards there are to be with each key.
fn counts_of<'a>(
    alloc: Global,
    lists: &[(&'a Name, Vec<&'a Tree>)],
) -> Result<Vec<(&'a Name, usize)>, Memory>
    ensures { IfOk result (λ counts. lent_counts counts.items ≡ spec.counts_in (lent_lists lists.now)) }
{
    let mut counts = Vec::with_capacity(alloc, lists.len())?;
    for list in lists {
        counts.push((list.0, list.1.len()))?;
    }
    Ok(counts)
}

// The text of the records of slots, and whether they are those from before.
fn rewrite_all<'a>(
    alloc: Global,
    opened: &Opened,
    lists: &[(&'a Name, Vec<&'a Tree>)],
    slots: &[NewItem],
) -> Result<(Vec<u8>, bool), Memory>
    requires even { spec.IsEven opened.now }
    requires inside { All (spec.IsInside opened.now (lent_lists lists.now)) slots.now }
    ensures text { IfOk result (λ r. r.0.items ≡ written opened.now.mark (spec.header_in opened.now ∷ spec.slot_rows opened.now (lent_lists lists.now) slots.now)) }
    ensures same { IfOk result (λ r. IsTrue r.1 ↔ (spec.slot_rows opened.now (lent_lists lists.now) slots.now ≡ spec.others_in opened.now)) }
{
    let mut writer = RecordsWriter::new(alloc, opened.mark)?;
    writer.append_record(&opened.rows[0])?;
    let mut same = true;
    for at in 0..slots.len() {
        let stands = append_slot(alloc, &mut writer, opened, lists, &slots[at], at + 1)?;
        same = both(same, stands);
    }
    let whole = slots.len() + 1 == opened.rows.len();
    Ok((writer.finish()?, both(same, whole)))
}

fn both(one: bool, other: bool) -> bool
    ensures { result ≡ (one && other) }
{
    one && other
}

// Appends the record of a slot, and tells whether it stands at a place of those from before.
fn append_slot<'a>(
    alloc: Global,
    writer: &mut RecordsWriter,
    opened: &Opened,
    lists: &[(&'a Name, Vec<&'a Tree>)],
    slot: &NewItem,
    at: usize,
) -> Result<bool, Memory>
    requires even { spec.IsEven opened.now }
    requires inside { spec.IsInside opened.now (lent_lists lists.now) slot.now }
    ensures { IfOk result (spec.IsAppended (spec.rows_in opened.now) at writer.old writer.new (spec.row_in opened.now (spec.slot_in opened.now (lent_lists lists.now) slot.now))) }
{
    let (key, cards) = &lists[slot.edge];
    let card = cards[slot.place];
    match slot.from {
        Some(item) => append_rewritten(alloc, writer, opened, item + 1, card, at),
        None => append_new(alloc, writer, opened, key, card, at),
    }
}

// The same of the record of a new item.
fn append_new(
    alloc: Global,
    writer: &mut RecordsWriter,
    opened: &Opened,
    key: &Name,
    card: &Tree,
    at: usize,
) -> Result<bool, Memory>
    requires { spec.IsEven opened.now }
    ensures { IfOk result (spec.IsAppended (spec.rows_in opened.now) at writer.old writer.new (spec.row_in opened.now (key.now, None, card.now))) }
{
    let new = new_record(alloc, opened, key, card)?;
    append(writer, &opened.rows, &new, at)
}

// The same of a record from before that is to show a card. Where it shows that card already it isn't copied.
fn append_rewritten(
    alloc: Global,
    writer: &mut RecordsWriter,
    opened: &Opened,
    from: usize,
    card: &Tree,
    at: usize,
) -> Result<bool, Memory>
    requires even { spec.IsEven opened.now }
    requires inside { from < length opened.now.rows.items }
    ensures { IfOk result (spec.IsAppended (spec.rows_in opened.now) at writer.old writer.new (rewritten opened.now.table.columns.items card.now (get_or (spec.rows_in opened.now) from []))) }
{
    match rewrite(alloc, &opened.table, &opened.rows[from], card)? {
        Some(new) => append(writer, &opened.rows, &new, at),
        None => append_from(writer, &opened.rows, from, at),
    }
}

// Appends a record, and tells whether it stands at a place of some.
fn append(
    writer: &mut RecordsWriter,
    rows: &[ByteRecord],
    row: &ByteRecord,
    at: usize,
) -> Result<bool, Memory>
    ensures { IfOk result (spec.IsAppended (map fields_of rows.now) at writer.old writer.new (fields_of row.now)) }
{
    writer.append_record(row)?;
    Ok(is_record(rows, at, row))
}

// The same of one of them.
fn append_from(
    writer: &mut RecordsWriter,
    rows: &[ByteRecord],
    from: usize,
    at: usize,
) -> Result<bool, Memory>
    requires { from < length rows.now }
    ensures { IfOk result (spec.IsAppended (map fields_of rows.now) at writer.old writer.new (get_or (map fields_of rows.now) from [])) }
{
    writer.append_record(&rows[from])?;
    Ok(stands(rows, from, at))
}

// Whether one of some records stands at a place. At its own it does, and isn't compared.
fn stands(rows: &[ByteRecord], from: usize, at: usize) -> bool
    requires { from < length rows.now }
    ensures { IsTrue result ↔ (slice_get (map fields_of rows.now) at ≡ Some (get_or (map fields_of rows.now) from [])) }
{
    if from == at {
        return true;
    }
    is_record(rows, at, &rows[from])
}

// Whether a record stands at a place.
fn is_record(rows: &[ByteRecord], at: usize, row: &ByteRecord) -> bool
    ensures { IsTrue result ↔ (slice_get (map fields_of rows.now) at ≡ Some (fields_of row.now)) }
{
    match rows.get(at) {
        Some(other) => same_fields(other, row),
        None => false,
    }
}

// The record of a new item.
fn new_record(alloc: Global, opened: &Opened, key: &Name, card: &Tree) -> Result<ByteRecord, Memory>
    requires { spec.IsEven opened.now }
    ensures { IfOk result (λ new. fields_of new ≡ spec.row_in opened.now (key.now, None, card.now)) }
{
    let _text = key.text();
    let count = opened.rows[0].len();
    let blank = blank(alloc, opened.key, key, count)?;
    match rewrite(alloc, &opened.table, &blank, card)? {
        Some(new) => Ok(new),
        None => Ok(blank),
    }
}

// Whether two records have the same fields.
fn same_fields(one: &ByteRecord, other: &ByteRecord) -> bool
    ensures { IsTrue result ↔ (fields_of one.now ≡ fields_of other.now) }
{
    if one.len() != other.len() {
        return false;
    }
    same_each(one, other)
}

// The same of records of one length.
fn same_each(one: &ByteRecord, other: &ByteRecord) -> bool
    requires { length (fields_of one.now) ≡ length (fields_of other.now) }
    ensures { IsTrue result ↔ (fields_of one.now ≡ fields_of other.now) }
{
    for place in 0..one.len() {
        if field(one, place) != field(other, place) {
            return false;
        }
    }
    true
}

fn copy_of(alloc: Global, bytes: &[u8]) -> Result<Vec<u8>, Memory>
    ensures { IfOk result (λ copy. copy.items ≡ bytes.now) }
{
    let mut copy = Vec::with_capacity(alloc, bytes.len())?;
    copy.extend_from_slice(bytes)?;
    Ok(copy)
}
