//! Why components are no items.
ghost use Rattle.std.specs.Prelude.{◌≡◌};
ghost use Rattle.hm_lines_files.specs.declared.fault.ItemFault.TheVariants.{Memory};

use hm_tree::Memory;
use std::alloc::AllocFailed;

/// Why components are no items.
#[derive(Clone, Copy, Debug, PartialEq, Eq)]
pub enum ItemFault {
    /// The component of this number, from 1, is the first without a key.
    NoKey { number: usize },
    /// There was no memory.
    Memory,
}

impl From<Memory> for ItemFault {
    ghost from_gives = { λ _ e. e ≡ Memory };

    fn from(_: Memory) -> ItemFault {
        ItemFault::Memory
    }
}

impl<T: Drop> From<AllocFailed<T>> for ItemFault {
    ghost from_gives = { λ _ e. e ≡ Memory };

    fn from(_: AllocFailed<T>) -> ItemFault {
        ItemFault::Memory
    }
}
