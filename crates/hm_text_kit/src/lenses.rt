//! The text lenses that lens files can name.
ghost use Rattle.std.specs.Prelude.{◌≡◌, IfOk};
ghost use Rattle.hm_text_kit.specs.YesAndNo.{yes_and_no};
ghost use Rattle.hm_text_kit.specs.TextLenses as spec;

use crate::{FoldCase, SwapDate, SwapWords, TrimEnds};
use hm_text_lens::{Chain, TextLens};
use hm_tree::{Memory, Name};
use std::alloc::Global;

/// The lens `trim`: a text without the spaces at its ends.
pub fn trim(alloc: Global) -> Result<TrimEnds, Memory>
    ensures { IfOk result (λ lens. ⟦<TrimEnds as TextLens>⟧.meaning lens ≡ spec.trim) }
{
    Ok(TrimEnds::new(named(alloc, "trim")?))
}

/// The lens `date`: `YYYYMMDD` and `YYYY-MM-DD` are exchanged.
pub fn date(alloc: Global) -> Result<SwapDate, Memory>
    ensures { IfOk result (λ lens. ⟦<SwapDate as TextLens>⟧.meaning lens ≡ spec.date) }
{
    Ok(SwapDate::new(named(alloc, "date")?))
}

/// The lens `email`: an address without the spaces at its ends, in one case.
pub fn email(alloc: Global) -> Result<Chain<TrimEnds, FoldCase>, Memory>
    ensures { IfOk result (λ lens. ⟦<Chain<TrimEnds, FoldCase> as TextLens>⟧.meaning lens ≡ spec.email) }
{
    let trim = TrimEnds::new(named(alloc, "trim")?);
    let fold = FoldCase::new(named(alloc, "fold")?);
    Ok(Chain::new(named(alloc, "email")?, trim, fold))
}

/// The lens `yesno`: `Y` and `yes`, and `N` and `no`, are exchanged.
pub fn yes_no(alloc: Global) -> Result<SwapWords, Memory>
    ensures { IfOk result (λ lens. ⟦<SwapWords as TextLens>⟧.meaning lens ≡ spec.yes_no) }
{
    SwapWords::new(named(alloc, "yesno")?, yes_no_pairs(alloc)?)
}

fn named(alloc: Global, name: &str) -> Result<Name, Memory>
    ensures { IfOk result (λ named. named ≡ name.now) }
{
    Name::from_text(alloc, name)
}

fn yes_no_pairs(alloc: Global) -> Result<Vec<(Name, Name)>, Memory>
    ensures { IfOk result (λ pairs. pairs.items ≡ yes_and_no) }
{
    let mut pairs = Vec::new(alloc);
    pairs.push((named(alloc, "Y")?, named(alloc, "yes")?))?;
    pairs.push((named(alloc, "N")?, named(alloc, "no")?))?;
    Ok(pairs)
}
