//! Why a program isn't read.
ghost use Rattle.std.specs.Prelude.{◌≡◌};
ghost use Rattle.hm_focal.specs.declared.fault.LensFault.TheVariants.{Memory};

use hm_tree::Memory;
use thiserror::Error;

/// Why a program isn't read.
#[derive(Debug, Drop, Error)]
pub enum LensFault {
    /// The first bad line, counted from 1; one more than there are lines where none is bad, but the first line, the
    /// format line or the main line is missing.
    #[error("line {line} is bad")]
    BadLens { line: usize },
    /// There was no memory.
    #[error("there was no memory")]
    Memory,
}

impl From<Memory> for LensFault {
    ghost from_gives = { λ _ e. e ≡ Memory };

    fn from(_: Memory) -> LensFault {
        LensFault::Memory
    }
}
