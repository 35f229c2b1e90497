//! Why values aren't nodes.
ghost use Rattle.std.specs.Prelude.{◌≡◌};
ghost use Rattle.hm_json_nodes.specs.declared.fault.NodeFault.TheVariants.{Memory};

use hm_tree::Memory;
use std::alloc::{AllocError, AllocFailed};

/// Why values aren't nodes.
#[derive(Drop)]
pub enum NodeFault {
    /// One of them is neither a link nor a folder: the number of the first, from 1.
    Misfit { number: usize },
    /// There was no memory.
    Memory,
}

impl From<Memory> for NodeFault {
    ghost from_gives = { λ _ e. e ≡ Memory };

    fn from(_: Memory) -> NodeFault {
        NodeFault::Memory
    }
}

impl From<AllocError> for NodeFault {
    ghost from_gives = { λ _ e. e ≡ Memory };

    fn from(_: AllocError) -> NodeFault {
        NodeFault::Memory
    }
}

impl<T: Drop> From<AllocFailed<T>> for NodeFault {
    ghost from_gives = { λ _ e. e ≡ Memory };

    fn from(_: AllocFailed<T>) -> NodeFault {
        NodeFault::Memory
    }
}
