//! What stands between the parentheses of a lens without lenses inside.
ghost use Rattle.std.specs.Prelude.{IfOk};
ghost use Rattle.hm_focal_terms.specs.Fronts.{IsWord, Behind, One, Two};
ghost use Rattle.hm_focal_terms.specs.Reading.{IsFound, IsFoundTwo};

use crate::front::{read_edge, read_sign, read_tree, read_word};
use crate::names::read_set;
use hm_tree::{Memory, Name, NameSet, Tree};
use std::alloc::Global;

/// A name of an edge, a set of such names, or a tree.
pub trait Argument: Drop {
    ghost use Rattle.std.specs.Prelude.{◌≡◌, ℕ, List, IfOk};
    ghost use Rattle.hm_focal_terms.specs.Reading.{IsFound};

    // it stands at the front of bytes, and what is left behind it
    ghost stands: { List ℕ → Self → List ℕ → Type 0 };

    fn read<'a>(alloc: Global, text: &'a [u8]) -> Result<Option<(Self, &'a [u8])>, Memory>
        ensures { IfOk result (IsFound stands text.now) };

    // at most one stands there
    ghost once: { (bytes : List ℕ) (x y : Self) (r s : List ℕ) → stands bytes x r → stands bytes y s → (x ≡ y) × (r ≡ s) };
}

impl Argument for Name {
    ghost use Rattle.hm_focal_terms.specs.Fronts.{IsEdge};
    ghost use Rattle.hm_focal_terms.specs.FrontLaws.{one_edge};

    ghost stands = { IsEdge };

    ghost once = { one_edge };

    fn read<'a>(alloc: Global, text: &'a [u8]) -> Result<Option<(Name, &'a [u8])>, Memory> {
        read_edge(alloc, text)
    }
}

impl Argument for NameSet {
    ghost use Rattle.hm_focal_terms.specs.Fronts.{IsSet};
    ghost use Rattle.hm_focal_terms.specs.FrontLaws.{one_set};

    ghost stands = { IsSet };

    ghost once = { one_set };

    fn read<'a>(alloc: Global, text: &'a [u8]) -> Result<Option<(NameSet, &'a [u8])>, Memory> {
        read_set(alloc, text)
    }
}

impl Argument for Tree {
    ghost use Rattle.hm_focal_terms.specs.Fronts.{IsTree};
    ghost use Rattle.hm_focal_terms.specs.FrontLaws.{one_tree};

    ghost stands = { IsTree };

    ghost once = { one_tree };

    fn read<'a>(alloc: Global, text: &'a [u8]) -> Result<Option<(Tree, &'a [u8])>, Memory> {
        read_tree(alloc, text)
    }
}

/// One behind a sign.
pub fn read_behind<'a, A: Argument>(
    alloc: Global,
    text: &'a [u8],
    sign: u8,
) -> Result<Option<(A, &'a [u8])>, Memory>
    ensures { IfOk result (IsFound (Behind sign A.stands) text.now) }
{
    match read_sign(text, sign) {
        Some(inner) => A::read(alloc, inner),
        None => Ok(None),
    }
}

/// One in parentheses.
pub fn read_one<'a, A: Argument>(
    alloc: Global,
    text: &'a [u8],
) -> Result<Option<(A, &'a [u8])>, Memory>
    ensures { IfOk result (IsFound (One A.stands) text.now) }
{
    let Some((argument, inner)) = read_behind::<A>(alloc, text, b'(')? else {
        return Ok(None);
    };
    match read_sign(inner, b')') {
        Some(rest) => Ok(Some((argument, rest))),
        None => Ok(None),
    }
}

/// Two in parentheses, with a comma between them.
pub fn read_two<'a, A: Argument, B: Argument>(
    alloc: Global,
    text: &'a [u8],
) -> Result<Option<(A, B, &'a [u8])>, Memory>
    ensures { IfOk result (IsFoundTwo (Two A.stands B.stands) text.now) }
{
    let Some((first, middle)) = read_behind::<A>(alloc, text, b'(')? else {
        return Ok(None);
    };
    let Some((second, inner)) = read_behind::<B>(alloc, middle, b',')? else {
        return Ok(None);
    };
    match read_sign(inner, b')') {
        Some(rest) => Ok(Some((first, second, rest))),
        None => Ok(None),
    }
}

/// A word in parentheses.
pub fn read_one_word<'a>(alloc: Global, text: &'a [u8]) -> Result<Option<(Name, &'a [u8])>, Memory>
    ensures { IfOk result (IsFound (One IsWord) text.now) }
{
    let Some(inner) = read_sign(text, b'(') else {
        return Ok(None);
    };
    let Some((word, last)) = read_word(alloc, inner)? else {
        return Ok(None);
    };
    match read_sign(last, b')') {
        Some(rest) => Ok(Some((word, rest))),
        None => Ok(None),
    }
}
