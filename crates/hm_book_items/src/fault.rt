//! Why items have no tree.
ghost use Rattle.std.specs.Prelude.{◌≡◌};
ghost use Rattle.hm_book_items.specs.declared.fault.ItemTreeFault.TheVariants.{Memory};

use hm_tree::Memory;

/// Why items have no tree.
#[derive(Clone, Copy, Debug, PartialEq, Eq, thiserror::Error)]
pub enum ItemTreeFault {
    /// Their tree is deeper than allowed.
    #[error("the tree is {depth} edges deep")]
    TooDeep {
        /// How many edges lie one below another.
        depth: usize,
    },
    /// There was no memory.
    #[error("there was no memory")]
    Memory,
}

impl From<Memory> for ItemTreeFault {
    ghost from_gives = { λ _ e. e ≡ Memory };

    fn from(_: Memory) -> ItemTreeFault {
        ItemTreeFault::Memory
    }
}
