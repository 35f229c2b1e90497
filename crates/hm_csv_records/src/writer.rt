//! Writing records.
ghost use Rattle.std.specs.Prelude.{◌≡◌, ◌++◌, ◌∷◌, [], Bool, List, IfOk, OnOk, map};
ghost use Rattle.csv.specs.Records.{fields_of};
ghost use Rattle.hm_csv_records.specs.Rows.{Fields};

use crate::records::BYTE_ORDER_MARK;
use csv::{ByteRecord, Writer, WriterBuilder};
use hm_tree::Memory;
use std::alloc::Global;

/// The text of records, to which they are appended one by one.
#[derive(Drop)]
pub struct RecordsWriter {
    writer: Writer<Vec<u8>>,
}

impl RecordsWriter {
    ghost use Rattle.hm_csv_records.specs.Written.{written, HasWritten};

    /// The text of no records, behind a byte-order mark if there is to be one.
    pub fn new(alloc: Global, mark: bool) -> Result<RecordsWriter, Memory>
        ensures { IfOk result (λ writer. HasWritten writer mark []) }
    {
        let mut text = Vec::new(alloc);
        if mark {
            text.extend_from_slice(&BYTE_ORDER_MARK)?;
        }
        Ok(RecordsWriter {
            writer: WriterBuilder::new().flexible(true).from_writer(text),
        })
    }

    /// Appends a record of these fields. Nothing is promised of what is written after there was no memory.
    pub fn append_fields(&mut self, fields: &[&[u8]]) -> Result<(), Memory>
        ensures { OnOk result ((mark : Bool) (rows : List Fields) → HasWritten self.old mark rows → HasWritten self.new mark (rows ++ map (λ f. f.now) fields.now ∷ [])) }
    {
        if self.writer.write_fields(fields).is_err() {
            return Err(Memory);
        }
        Ok(())
    }

    /// Appends a record. Nothing is promised of what is written after there was no memory.
    pub fn append_record(&mut self, row: &ByteRecord) -> Result<(), Memory>
        ensures { OnOk result ((mark : Bool) (rows : List Fields) → HasWritten self.old mark rows → HasWritten self.new mark (rows ++ fields_of row.now ∷ [])) }
    {
        if self.writer.write_byte_record(row).is_err() {
            return Err(Memory);
        }
        Ok(())
    }

    /// The whole text.
    pub fn finish(self) -> Result<Vec<u8>, Memory>
        ensures { IfOk result (λ text. (mark : Bool) (rows : List Fields) → HasWritten self mark rows → text.items ≡ written mark rows) }
    {
        match self.writer.into_inner() {
            Ok(text) => Ok(text),
            Err(_) => Err(Memory),
        }
    }
}
