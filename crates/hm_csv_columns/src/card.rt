//! The card that a record shows.
ghost use Rattle.std.specs.Prelude.{◌≡◌, ◌<◌, IsUtf8, All, IfOk, T, length};
ghost use Rattle.csv.specs.Records.{fields_of};
ghost use Rattle.hm_tree.specs.Nodes.{are_edges};
ghost use Rattle.hm_csv_columns.specs.Records as spec;

use crate::column::Column;
use crate::field::texts_shown;
use csv::ByteRecord;
use hm_book_cards::card_tree;
use hm_csv_records::field;
use hm_tree::{Memory, Name, NameSet, Tree};
use std::alloc::Global;

/// The card that a record shows through columns whose names rise.
pub fn card_of(alloc: Global, columns: &[Column], row: &ByteRecord) -> Result<Tree, Memory>
    requires names { T (are_edges (spec.shown_by columns.now)) }
    requires within { All (λ c. c.place < length (fields_of row.now)) columns.now }
    requires text { All IsUtf8 (fields_of row.now) }
    ensures { IfOk result (λ card. card ≡ spec.card_of columns.now (fields_of row.now)) }
{
    card_tree(alloc, texts_by(alloc, columns, row)?)
}

// The texts of a record below the names of its columns.
fn texts_by(
    alloc: Global,
    columns: &[Column],
    row: &ByteRecord,
) -> Result<Vec<(Name, NameSet)>, Memory>
    requires within { All (λ c. c.place < length (fields_of row.now)) columns.now }
    requires text { All IsUtf8 (fields_of row.now) }
    ensures { IfOk result (λ texts. texts.items ≡ spec.texts_by columns.now (fields_of row.now)) }
{
    let mut texts = Vec::with_capacity(alloc, columns.len())?;
    for column in columns {
        let field = field(row, column.place);
        texts.push((column.name.copy()?, texts_shown(alloc, column.many, field)?))?;
    }
    Ok(texts)
}
