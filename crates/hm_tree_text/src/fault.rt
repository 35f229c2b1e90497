//! Why a text wasn't read.
ghost use Rattle.std.specs.Prelude.{◌≡◌};
ghost use Rattle.hm_tree_text.specs.declared.fault.TextFault.TheVariants.{Memory};

use hm_tree::Memory;

/// Why a text wasn't read.
#[derive(Clone, Copy, Debug, PartialEq, Eq, thiserror::Error)]
pub enum TextFault {
    /// The bytes are no text of a value of the type that was asked for.
    #[error("no text goes on so at byte {at}")]
    BadTree {
        /// The length of the longest beginning that some text has.
        at: usize,
    },
    /// More than 1,000 braces are open at a place up to which the bytes are a beginning of some text.
    #[error("more than 1,000 braces are open")]
    TooDeep,
    /// There was no memory.
    #[error("there was no memory")]
    Memory,
}

impl From<Memory> for TextFault {
    ghost from_gives = { λ _ e. e ≡ Memory };

    fn from(_: Memory) -> TextFault {
        TextFault::Memory
    }
}
