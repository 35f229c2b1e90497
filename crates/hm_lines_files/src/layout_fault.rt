//! Why lines aren't those of a file.
ghost use Rattle.std.specs.Prelude.{◌≡◌};
ghost use Rattle.hm_lines_files.specs.declared.layout_fault.LayoutFault.TheVariants.{Memory};

use hm_tree::Memory;
use std::alloc::AllocFailed;

/// Why lines aren't those of a file.
#[derive(Clone, Copy, Debug, PartialEq, Eq)]
pub enum LayoutFault {
    /// The line at this place doesn't fit; where there is none, the lines end too early.
    At(usize),
    /// There was no memory.
    Memory,
}

impl From<Memory> for LayoutFault {
    ghost from_gives = { λ _ e. e ≡ Memory };

    fn from(_: Memory) -> LayoutFault {
        LayoutFault::Memory
    }
}

impl<T: Drop> From<AllocFailed<T>> for LayoutFault {
    ghost from_gives = { λ _ e. e ≡ Memory };

    fn from(_: AllocFailed<T>) -> LayoutFault {
        LayoutFault::Memory
    }
}
