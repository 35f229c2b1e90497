//! The folded name of a name.
ghost use Rattle.std.specs.Prelude.{◌≡◌, IfOk, IsAscii, string_bytes};
ghost use Rattle.hm_alike.specs.Alike.{caseless_key, folded};

use crate::squeezing::squeeze;
use caseless::default_case_fold_str;
use hm_tree::{Memory, Name};
use std::alloc::Global;
use unicode_normalization::{to_nfd, to_nfkd};

/// What is left of a name without what may differ between two spellings of one thing: case, spaces at the ends or
/// doubled, and Unicode normal form.
#[tactic(auto, unfolding(crate::specs::Alike::folded))]
pub fn fold(alloc: Global, name: &Name) -> Result<String, Memory>
    ensures { IfOk result (λ text. string_bytes text ≡ folded name.now) }
{
    let key = caseless_key(alloc, name.text())?;
    squeeze(alloc, key)
}

// The key of a caseless match under compatibility.
fn caseless_key(alloc: Global, text: &str) -> Result<String, Memory>
    ensures { IfOk result (λ key. string_bytes key ≡ caseless_key text.now) }
{
    if text.is_ascii() {
        return ascii_key(alloc, text);
    }
    let canonical = to_nfd(alloc, text)?;
    let once = default_case_fold_str(alloc, canonical.as_str())?;
    let compatible = to_nfkd(alloc, once.as_str())?;
    let twice = default_case_fold_str(alloc, compatible.as_str())?;
    Ok(to_nfkd(alloc, twice.as_str())?)
}

// That of ASCII, which is its lower case.
fn ascii_key(alloc: Global, text: &str) -> Result<String, Memory>
    requires { IsAscii text.now }
    ensures { IfOk result (λ key. string_bytes key ≡ caseless_key text.now) }
{
    let mut key = String::from_str(alloc, text)?;
    key.make_ascii_lowercase();
    Ok(key)
}
