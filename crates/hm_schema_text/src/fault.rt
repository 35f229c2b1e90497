//! Why a schema isn't read.
ghost use Rattle.std.specs.Prelude.{◌≡◌};
ghost use Rattle.hm_schema_text.specs.declared.fault.SchemaFault.TheVariants.{Memory};

use hm_tree::Memory;
use thiserror::Error;

/// Why a schema isn't read.
#[derive(Debug, Drop, Error)]
pub enum SchemaFault {
    /// The first bad line, counted from 1; one more than there are lines where only the first or second line is missing.
    #[error("line {line} is bad")]
    BadSchema { line: usize },
    /// There was no memory.
    #[error("there was no memory")]
    Memory,
}

impl From<Memory> for SchemaFault {
    ghost from_gives = { λ _ e. e ≡ Memory };

    fn from(_: Memory) -> SchemaFault {
        SchemaFault::Memory
    }
}
