//! Why a format refuses.
ghost use Rattle.std.specs.Prelude.{◌≡◌};
ghost use Rattle.hm_format.specs.declared.fault.FormatFault.TheVariants.{Memory};

use hm_tree::{Memory, Name, Path};
use std::alloc::{AllocError, AllocFailed};

/// Why a format refuses.
#[derive(Drop)]
pub enum FormatFault {
    /// The options aren't those of the format: the first key that is bad, or one that is missing.
    BadOption { key: Name },
    /// The bytes aren't UTF-8: how many are, up to the first that isn't.
    NotUtf8 { at: usize },
    /// The bytes aren't of the format's grammar: which line, record or byte, as the format counts.
    BadItem { number: usize },
    /// An item has no key: which, as the format counts.
    NoKey { number: usize },
    /// The tree is too deep.
    TooDeep { depth: usize },
    /// The names at a path aren't permitted by the schema; the first such path.
    Outside { path: Path },
    /// There was no memory.
    Memory,
}

impl From<Memory> for FormatFault {
    ghost from_gives = { λ _ e. e ≡ Memory };

    fn from(_: Memory) -> FormatFault {
        FormatFault::Memory
    }
}

impl From<AllocError> for FormatFault {
    ghost from_gives = { λ _ e. e ≡ Memory };

    fn from(_: AllocError) -> FormatFault {
        FormatFault::Memory
    }
}

impl<T: Drop> From<AllocFailed<T>> for FormatFault {
    ghost from_gives = { λ _ e. e ≡ Memory };

    fn from(_: AllocFailed<T>) -> FormatFault {
        FormatFault::Memory
    }
}
