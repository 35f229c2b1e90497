//! Classes of names.
ghost use Rattle.std.specs.Prelude.{◌↔◌, IsTrue};
ghost use Rattle.hm_tree.specs.Classes.{IsFilled, IsTrimmed};

use crate::cleaning::is_clean;

/// Which names are allowed. Each class but `Any` is within the one before it.
#[derive(Clone, Copy, Debug, PartialEq, Eq)]
pub enum Class {
    /// Every text.
    Any,
    /// Texts that cleaning leaves as they are: without control characters of ASCII other than tab and LF. It may be empty.
    Clean,
    /// Clean, with a character other than U+0020.
    Filled,
    /// Filled, with no U+0020 at either end.
    Trimmed,
    /// Trimmed, and equal to its own full case folding (The Unicode Standard, section 3.13).
    Folded,
}

/// Whether a text is clean and not of spaces alone.
pub fn is_filled(bytes: &[u8]) -> bool
    ensures { IsTrue result ↔ IsFilled bytes.now }
{
    is_clean(bytes) && bytes.iter().any(|byte| *byte != b' ')
}

/// Whether a text is filled and has no space at either end.
pub fn is_trimmed(bytes: &[u8]) -> bool
    ensures { IsTrue result ↔ IsTrimmed bytes.now }
{
    is_filled(bytes) && bytes.first() != Some(&b' ') && bytes.last() != Some(&b' ')
}
