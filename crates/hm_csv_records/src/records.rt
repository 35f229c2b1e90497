//! What is read of a file.

use csv::ByteRecord;

// U+FEFF in UTF-8.
pub(crate) const BYTE_ORDER_MARK: [u8; 3] = [0xEF, 0xBB, 0xBF];

/// What is read of a file.
#[derive(Drop)]
pub struct Records {
    /// Whether a byte-order mark stood in front.
    pub mark: bool,
    /// The records, of which the first is the header.
    pub rows: Vec<ByteRecord>,
}
