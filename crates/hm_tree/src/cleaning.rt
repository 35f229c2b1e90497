//! Texts whose line ends are LF, without other control characters of ASCII than tab.
ghost use Rattle.std.specs.Prelude.{◌≡◌, ◌↔◌, ◌++◌, IsTrue, IfOk, OnOk, All, filter};
ghost use Rattle.hm_tree.specs.Cleaned.{is_kept, cleaned};
ghost use Rattle.hm_tree.specs.LineEnds.{line_end};
ghost use Rattle.hm_tree.specs.Classes.{IsClean};

use crate::memory::Memory;
use std::alloc::Global;

// Whether cleaning keeps a byte. CR isn't kept.
fn is_kept(byte: u8) -> bool
    ensures { result ≡ is_kept byte }
{
    byte == b'\t' || byte == b'\n' || (byte >= 32 && byte != 127)
}

// Whether cleaning keeps each byte.
fn keeps_all(bytes: &[u8]) -> bool
    ensures { IsTrue result ↔ All (λ b. IsTrue (is_kept b)) bytes.now }
{
    bytes.iter().all(|byte| is_kept(*byte))
}

/// Whether cleaning leaves a text as it is.
pub fn is_clean(bytes: &[u8]) -> bool
    ensures { IsTrue result ↔ IsClean bytes.now }
{
    keeps_all(bytes)
}

/// What cleaning leaves of a text.
pub fn clean_bytes(alloc: Global, bytes: &[u8]) -> Result<Vec<u8>, Memory>
    ensures { IfOk result (λ kept. kept.items ≡ cleaned bytes.now) }
{
    let mut kept = Vec::with_capacity(alloc, bytes.len())?;
    let mut behind_return = false;
    for byte in bytes {
        push_cleaned(&mut kept, behind_return, *byte)?;
        behind_return = *byte == b'\r';
    }
    Ok(kept)
}

// Appends what cleaning leaves of a byte.
fn push_cleaned(kept: &mut Vec<u8>, behind_return: bool, byte: u8) -> Result<(), Memory>
    ensures { OnOk result (kept.new.items ≡ kept.old.items ++ filter is_kept (line_end behind_return byte)) }
{
    if byte == b'\r' {
        kept.push(b'\n')?;
    } else if is_kept(byte) && !(behind_return && byte == b'\n') {
        kept.push(byte)?;
    }
    Ok(())
}
