//! What is wrong with a program.
ghost use Rattle.std.specs.Prelude.{◌≡◌};
ghost use Rattle.hm_types_terms.specs.declared.fault.TypeFault.TheVariants.{Memory};

use hm_tree::{Memory, Name};
use std::alloc::{AllocError, AllocFailed};

/// What is wrong with a program. Definitions are numbered from 1 in their order, the main lens last; the lenses of one are
/// numbered from 1, a lens before those inside it, these from left to right.
#[derive(Drop)]
pub enum TypeFault {
    /// A condition of a lens isn't met: the number of the definition, that of the lens, and that of the rule.
    Mistyped {
        definition: usize,
        term: usize,
        rule: u8,
    },
    /// There is no text lens of this name.
    UnknownLens {
        name: Name,
    },
    /// This definition is in a bad cycle.
    Unguarded {
        name: Name,
    },
    /// The view of the main lens has twins: its number, and that of the first lens in it that copies.
    TwinLeft {
        definition: usize,
        term: usize,
    },
    /// There was no memory.
    Memory,
}

impl From<Memory> for TypeFault {
    ghost from_gives = { λ _ e. e ≡ Memory };

    fn from(_: Memory) -> TypeFault {
        TypeFault::Memory
    }
}

impl From<AllocError> for TypeFault {
    ghost from_gives = { λ _ e. e ≡ Memory };

    fn from(_: AllocError) -> TypeFault {
        TypeFault::Memory
    }
}

impl<T: Drop> From<AllocFailed<T>> for TypeFault {
    ghost from_gives = { λ _ e. e ≡ Memory };

    fn from(_: AllocFailed<T>) -> TypeFault {
        TypeFault::Memory
    }
}
