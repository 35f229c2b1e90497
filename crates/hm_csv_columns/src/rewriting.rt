//! Records that are to show other cards.
ghost use Rattle.std.specs.Prelude.{◌≡◌, ◌<◌, ◌++◌, ◌∷◌, [], true, None, Option, IsUtf8, All, IfOk, OnOk, MatchOption, cond, option_and_then, length, get_or, slice_get, map, take};
ghost use Rattle.csv.specs.Records.{fields_of, partial_of};
ghost use Rattle.std.specs.Bool.{◌==◌};
ghost use Rattle.std.specs.Option.{option_map};
ghost use Rattle.hm_book_cards.specs.Cards as cards;
ghost use Rattle.hm_csv_columns.specs.Fields as fields;
ghost use Rattle.hm_csv_columns.specs.Records as spec;

use crate::column::Column;
use crate::field::made;
use crate::staying::shows_names;
use csv::ByteRecord;
use hm_book_cards::{edges_at, texts_at};
use hm_csv_records::field;
use hm_tree::{Memory, Name, Tree};
use std::alloc::Global;

/// The columns of a table, and for each place of a record which of them is there.
#[derive(Drop)]
pub struct Table {
    pub columns: Vec<Column>,
    pub signs: Vec<Option<usize>>,
}

/// The record that is to show a card, or none where it is the record itself: a field that is in no column, and one whose texts
/// stay, is left alone.
pub fn rewrite(
    alloc: Global,
    table: &Table,
    row: &ByteRecord,
    card: &Tree,
) -> Result<Option<ByteRecord>, Memory>
    requires signs { spec.AreSigns table.now.columns.items table.now.signs.items (length (fields_of row.now)) }
    requires text { All IsUtf8 (fields_of row.now) }
    ensures { IfOk result (λ new. MatchOption new (spec.rewritten table.now.columns.items card.now (fields_of row.now) ≡ fields_of row.now) (λ r. fields_of r ≡ spec.rewritten table.now.columns.items card.now (fields_of row.now))) }
{
    for place in 0..row.len() {
        if !stays(alloc, column_at(table, place), field(row, place), card)? {
            return Ok(Some(rewrite_from(alloc, table, row, card, place)?));
        }
    }
    Ok(None)
}

// The same where the fields before a place stay, so that they are copied at once.
fn rewrite_from(
    alloc: Global,
    table: &Table,
    row: &ByteRecord,
    card: &Tree,
    from: usize,
) -> Result<ByteRecord, Memory>
    requires signs { spec.AreSigns table.now.columns.items table.now.signs.items (length (fields_of row.now)) }
    requires text { All IsUtf8 (fields_of row.now) }
    requires inside { from < length (fields_of row.now) }
    requires before { spec.rewritten table.now.columns.items card.now (take from (fields_of row.now)) ≡ take from (fields_of row.now) }
    ensures { IfOk result (λ new. fields_of new ≡ spec.rewritten table.now.columns.items card.now (fields_of row.now)) }
{
    let mut new = row.clone()?;
    new.truncate(from);
    for place in from..row.len() {
        push_for(
            alloc,
            &mut new,
            column_at(table, place),
            field(row, place),
            card,
        )?;
    }
    Ok(new)
}

// The column that is at a place.
fn column_at(table: &Table, place: usize) -> Option<&Column>
    requires { place < length table.now.signs.items }
    ensures { option_map (λ c. c.now) result ≡ option_and_then (slice_get table.now.columns.items) (get_or table.now.signs.items place None) }
{
    let index = table.signs[place]?;
    table.columns.get(index)
}

// Whether a field stays where it is to show a card: it's in no column, or its texts stay.
fn stays(alloc: Global, column: Option<&Column>, field: &[u8], card: &Tree) -> Result<bool, Memory>
    requires text { IsUtf8 field.now }
    ensures { IfOk result (λ yes. MatchOption column.entry (yes ≡ true) (λ c. yes ≡ fields.same_texts (fields.texts_shown c.now.many field.now) (cards.texts_at c.now.name card.now))) }
{
    let Some(column) = column else {
        return Ok(true);
    };
    shows_names(alloc, column.many, field, edges_at(card, &column.name))
}

// Puts the field that is to show a card behind those of a record.
fn push_for(
    alloc: Global,
    new: &mut ByteRecord,
    column: Option<&Column>,
    field: &[u8],
    card: &Tree,
) -> Result<(), Memory>
    requires whole { partial_of new.old ≡ [] }
    requires text { IsUtf8 field.now }
    ensures pushed { OnOk result (fields_of new.new ≡ fields_of new.old ++ spec.field_in (option_map (λ c. c.now) column.entry) card.now field.now ∷ []) }
    ensures whole { OnOk result (partial_of new.new ≡ []) }
{
    let Some(column) = column else {
        return Ok(new.push_field(field)?);
    };
    push_made(alloc, new, column, field, card)
}

// The same in a column.
fn push_made(
    alloc: Global,
    new: &mut ByteRecord,
    column: &Column,
    field: &[u8],
    card: &Tree,
) -> Result<(), Memory>
    requires whole { partial_of new.old ≡ [] }
    requires text { IsUtf8 field.now }
    ensures pushed { OnOk result (fields_of new.new ≡ fields_of new.old ++ fields.field_for column.now.many field.now (cards.texts_at column.now.name card.now) ∷ []) }
    ensures whole { OnOk result (partial_of new.new ≡ []) }
{
    let edges = edges_at(card, &column.name);
    if shows_names(alloc, column.many, field, edges)? {
        new.push_field(field)?;
    } else {
        let texts = texts_at(card, &column.name)?;
        new.push_field(&made(alloc, column.many, field, &texts)?)?;
    }
    Ok(())
}

/// A record of so many fields that are empty but for the key at its place.
pub fn blank(alloc: Global, place: usize, key: &Name, count: usize) -> Result<ByteRecord, Memory>
    ensures { IfOk result (λ new. fields_of new ≡ spec.blank place key.now count) }
{
    let mut new = ByteRecord::new(alloc);
    for at in 0..count {
        new.push_field(key_or_nothing(at, place, key))?;
    }
    Ok(new)
}

// The key, if it stands there.
fn key_or_nothing(at: usize, place: usize, key: &Name) -> &[u8]
    ensures { result.now ≡ cond (at == place) key.now [] }
{
    if at == place { key.bytes() } else { b"" }
}
