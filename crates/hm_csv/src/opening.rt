//! Opening a file: its records, and the columns that options name.
ghost use Rattle.std.specs.Prelude.{◌≡◌, ◌<◌, ◌∷◌, All, IsUtf8, IfOk, IfErr, drop, length, map};
ghost use Rattle.csv.specs.Records.{fields_of};
ghost use Rattle.hm_schema.specs.Values.{options_value};
ghost use Rattle.hm_csv_records.specs.Rows.{IsHeader};
ghost use Rattle.hm_csv_records.specs.Reads.{IsSheet, sheet_of};
ghost use Rattle.hm_csv_columns.specs.Records.{AreSigns};
ghost use Rattle.hm_csv.specs.Options as spec;
ghost use Rattle.hm_csv.specs.Tables as tables;
ghost use Rattle.hm_csv.specs.Opened.{IsOpened, Hinders};

use crate::options::{column_names, shown_of};
use csv::ByteRecord;
use hm_csv_columns::{Column, Table};
use hm_csv_records::{Records, RecordsFault, columns, read_records};
use hm_format::FormatFault;
use hm_schema::Options;
use hm_tree::{Memory, Name};
use std::alloc::Global;

/// A file that was opened.
#[derive(Drop)]
pub struct Opened {
    /// Whether a byte-order mark stands in front.
    pub mark: bool,
    /// The records, of which the first is the header.
    pub rows: Vec<ByteRecord>,
    /// The place of the key's field in a record.
    pub key: usize,
    /// The columns that are shown.
    pub table: Table,
}

impl Opened {
    /// The records behind the header.
    pub fn others(&self) -> &[ByteRecord]
        ensures { result.now ≡ drop 1 self.now.rows.items }
    {
        match self.rows.split_first() {
            Some((_, others)) => others,
            None => &[],
        }
    }
}

/// The records of a file, and its columns.
pub fn open(alloc: Global, options: &Options, bytes: &[u8]) -> Result<Opened, FormatFault>
    ensures opened { IfOk result (λ opened. IsOpened (options_value options.now) bytes.now opened) }
    ensures fault { IfErr result (Hinders (spec.column_names (options_value options.now)) bytes.now) }
{
    let shown = shown_of(alloc, options)?;
    let names = column_names(alloc, options, &shown)?;
    let Records { mark, rows } = records(alloc, &names, bytes)?;
    let Some(header) = rows.first() else {
        unreachable!()
    };
    let (key, columns) = columns_in(alloc, options, header, &names, shown)?;
    let signs = signs(alloc, &columns, header.len())?;
    let table = Table { columns, signs };
    Ok(Opened {
        mark,
        rows,
        key,
        table,
    })
}

// The records of a file whose header is to have columns of some names.
fn records(alloc: Global, names: &[Name], bytes: &[u8]) -> Result<Records, FormatFault>
    ensures sheet { IfOk result (λ records. IsSheet names.now bytes.now (sheet_of records)) }
    ensures text { IfOk result (λ records. All (λ row. All IsUtf8 (fields_of row)) records.rows.items) }
    ensures fault { IfErr result (Hinders names.now bytes.now) }
{
    match read_records(alloc, names, bytes) {
        Ok(records) => Ok(records),
        Err(RecordsFault::NotUtf8 { at }) => Err(FormatFault::NotUtf8 { at }),
        Err(RecordsFault::BadItem { number }) => Err(FormatFault::BadItem { number }),
        Err(RecordsFault::Memory) => Err(FormatFault::Memory),
    }
}

// The place of the key, and the columns that are shown, by a header that has them.
fn columns_in(
    alloc: Global,
    options: &Options,
    header: &ByteRecord,
    names: &[Name],
    shown: Vec<(Name, bool)>,
) -> Result<(usize, Vec<Column>), Memory>
    requires shown { shown.items ≡ spec.shown_of (options_value options.now) }
    requires names { names.now ≡ spec.column_names (options_value options.now) }
    requires header { IsHeader names.now (fields_of header.now) }
    requires text { All IsUtf8 (fields_of header.now) }
    ensures key { IfOk result (λ found. found.0 ≡ tables.key_place (options_value options.now) (fields_of header.now)) }
    ensures columns { IfOk result (λ found. found.1.items ≡ tables.columns_of (options_value options.now) (fields_of header.now)) }
{
    let Some(places) = columns(alloc, header, names)? else {
        unreachable!()
    };
    let mut columns = Vec::with_capacity(alloc, shown.len())?;
    for (name, many) in shown {
        let place = places[columns.len() + 1];
        columns.push(Column { name, many, place })?;
    }
    Ok((places[0], columns))
}

// For each of so many places which of the columns is there, the first one of those.
fn signs(alloc: Global, columns: &[Column], count: usize) -> Result<Vec<Option<usize>>, Memory>
    requires { All (λ c. c.place < count) columns.now }
    ensures { IfOk result (λ signs. AreSigns columns.now signs.items count) }
{
    let mut signs = vec![in alloc; None; count]?;
    for at in (0..columns.len()).rev() {
        signs[columns[at].place] = Some(at);
    }
    Ok(signs)
}
