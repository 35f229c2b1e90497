//! Why records weren't read.
ghost use Rattle.std.specs.Prelude.{◌≡◌};
ghost use Rattle.hm_csv_records.specs.declared.fault.RecordsFault.TheVariants.{Memory};

use hm_tree::Memory;

/// Why records weren't read.
#[derive(Clone, Copy, Debug, PartialEq, Eq, thiserror::Error)]
pub enum RecordsFault {
    /// The bytes aren't UTF-8.
    #[error("the bytes stop being UTF-8 at byte {at}")]
    NotUtf8 {
        /// The length of the longest beginning that is UTF-8.
        at: usize,
    },
    /// A record is bad, or there is no header.
    #[error("record {number} is bad")]
    BadItem {
        /// The number of the first bad record, from 1; 1 where there is no header.
        number: usize,
    },
    /// There was no memory.
    #[error("there was no memory")]
    Memory,
}

impl From<Memory> for RecordsFault {
    ghost from_gives = { λ _ e. e ≡ Memory };

    fn from(_: Memory) -> RecordsFault {
        RecordsFault::Memory
    }
}
