//! Names and lines of some texts.
ghost use Rattle.std.specs.Prelude.{All, IsUtf8, IfOk};

use hm_tree::{Memory, Name};
use std::alloc::Global;
use std::test::Fail;

/// Some texts.
pub type Texts = &'static [&'static str];

pub fn names_of(alloc: Global, texts: &[&str]) -> Result<Vec<Name>, Memory> {
    let mut names = Vec::new(alloc);
    for text in texts {
        names.push(Name::from_text(alloc, text)?)?;
    }
    Ok(names)
}

/// The bytes of some texts.
pub fn lines_of(alloc: Global, texts: &[&str]) -> Result<Vec<Vec<u8>>, Memory>
    ensures { IfOk result (λ lines. All (λ line. IsUtf8 line.items) lines.items) }
{
    let mut lines = Vec::new(alloc);
    for text in texts {
        lines.push(Vec::from_slice(alloc, text.as_bytes())?)?;
    }
    Ok(lines)
}

/// An error that tells the case, where it isn't as it should be.
pub fn expect(is: bool, case: &str) -> Result<(), Fail> {
    if is {
        return Ok(());
    }
    Err(Fail::new(format_args!("otherwise: {case}")))
}
