//! Reading the records of a file.
ghost use Rattle.std.specs.Prelude.{◌≡◌, ◌↔◌, ◌++◌, ◌∷◌, [], IsTrue, IsUtf8, All, IfOk, IfErr, OnOk, MatchOption, map};
ghost use Rattle.csv.specs.Reading.{error_kind};
ghost use Rattle.csv.specs.Records.{fields_of};
ghost use Rattle.hm_csv_records.specs.Rows.{BeginsWithMark, IsMarked, IsHeader};
ghost use Rattle.hm_csv_records.specs.Reads.{AreRows, RowsFaults, RefusesRow, Tells, StopsAt, ReadsRecords, UnlessMemory, shown};

use crate::fault::RecordsFault;
use crate::header::columns;
use crate::records::{BYTE_ORDER_MARK, Records};
use csv::{ByteRecord, Error, ErrorKind, ReaderBuilder};
use hm_tree::{Memory, Name};
use std::alloc::Global;
use std::str;

/// The records of a file whose header is to have columns of some names.
pub fn read_records(alloc: Global, names: &[Name], bytes: &[u8]) -> Result<Records, RecordsFault>
    ensures reads { UnlessMemory (ReadsRecords names.now bytes.now) (shown result) }
    ensures text { IfOk result (λ records. All (λ row. All IsUtf8 (fields_of row)) records.rows.items) }
{
    if let Some(at) = broken_at(bytes) {
        return Err(RecordsFault::NotUtf8 { at });
    }
    let rows = read_rows(alloc, names, bytes)?;
    Ok(Records {
        mark: begins_with_mark(bytes),
        rows,
    })
}

// Where bytes stop being UTF-8; none where all of them are.
fn broken_at(bytes: &[u8]) -> Option<usize>
    ensures { MatchOption result (IsUtf8 bytes.now) (StopsAt bytes.now) }
{
    match str::from_utf8(bytes) {
        Ok(_) => None,
        Err(error) => Some(error.valid_up_to()),
    }
}

// The records behind the byte-order mark.
fn read_rows(alloc: Global, names: &[Name], bytes: &[u8]) -> Result<Vec<ByteRecord>, RecordsFault>
    requires { IsUtf8 bytes.now }
    ensures rows { IfOk result (λ rows. AreRows names.now bytes.now (map fields_of rows.items)) }
    ensures fault { IfErr result (RowsFaults names.now bytes.now) }
{
    let reader = ReaderBuilder::new()
        .has_headers(false)
        .from_reader(alloc, bytes);
    let mut rows = Vec::new(alloc);
    for row in reader.into_byte_records() {
        match row {
            Ok(row) => keep(alloc, names, &mut rows, row)?,
            Err(error) => return Err(refusal(&error, rows.len())),
        }
    }
    if rows.is_empty() {
        return Err(RecordsFault::BadItem { number: 1 });
    }
    Ok(rows)
}

// One record more. The header is judged when it comes, since its fault comes before those of the records behind it.
fn keep(
    alloc: Global,
    names: &[Name],
    rows: &mut Vec<ByteRecord>,
    row: ByteRecord,
) -> Result<(), RecordsFault>
    requires { All IsUtf8 (fields_of row) }
    ensures kept { OnOk result (rows.new.items ≡ rows.old.items ++ row ∷ []) }
    ensures header { OnOk result (rows.old.items ≡ [] → IsHeader names.now (fields_of row)) }
    ensures fault { IfErr result (RefusesRow names.now (map fields_of rows.old.items) (fields_of row)) }
{
    if rows.is_empty() && !is_header(alloc, names, &row)? {
        return Err(RecordsFault::BadItem { number: 1 });
    }
    push(rows, row)?;
    Ok(())
}

fn push(rows: &mut Vec<ByteRecord>, row: ByteRecord) -> Result<(), Memory>
    ensures { OnOk result (rows.new.items ≡ rows.old.items ++ row ∷ []) }
{
    rows.push(row)?;
    Ok(())
}

// Why a record behind so many others wasn't read. The bytes are in memory, so what isn't about records is want of it.
fn refusal(error: &Error, before: usize) -> RecordsFault
    ensures { Tells before (error_kind error.now) result }
{
    match error.kind() {
        ErrorKind::UnequalLengths { .. } => match before.checked_add(1) {
            Some(number) => RecordsFault::BadItem { number },
            None => RecordsFault::Memory,
        },
        _ => RecordsFault::Memory,
    }
}

// Whether a record may be the header.
fn is_header(alloc: Global, names: &[Name], row: &ByteRecord) -> Result<bool, Memory>
    requires { All IsUtf8 (fields_of row.now) }
    ensures { IfOk result (λ yes. IsTrue yes ↔ IsHeader names.now (fields_of row.now)) }
{
    if is_marked(row) {
        return Ok(false);
    }
    Ok(columns(alloc, row, names)?.is_some())
}

// Whether a record's first field begins with a byte-order mark.
fn is_marked(row: &ByteRecord) -> bool
    ensures { IsTrue result ↔ IsMarked (fields_of row.now) }
{
    match row.get(0) {
        Some(field) => begins_with_mark(field),
        None => false,
    }
}

fn begins_with_mark(bytes: &[u8]) -> bool
    ensures { IsTrue result ↔ BeginsWithMark bytes.now }
{
    bytes.starts_with(&BYTE_ORDER_MARK)
}
