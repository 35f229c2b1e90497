//! The fields of a record.
ghost use Rattle.std.specs.Prelude.{◌≡◌, ◌<◌, [], All, IsUtf8, length, get_or};
ghost use Rattle.csv.specs.Records.{fields_of};

use csv::ByteRecord;

/// The field at a place of a record.
pub fn field(row: &ByteRecord, place: usize) -> &[u8]
    requires { place < length (fields_of row.now) }
    ensures field { result.now ≡ get_or (fields_of row.now) place [] }
    ensures text { All IsUtf8 (fields_of row.now) → IsUtf8 result.now }
{
    match row.get(place) {
        Some(field) => field,
        None => unreachable!(),
    }
}
